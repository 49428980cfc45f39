// The ends of arcs, by the numbers of their stages.
ghost use Rattle.std.specs.Prelude.{◌≡◌, ◌<◌, ◌^◌, ◌++◌, ◌∷◌, [], false, length, OnOk, OnErr, IfSome};
ghost use Rattle.std.specs.List.{list_any};
ghost use Rattle.stage_file.specs.Ends.{has_same_ends, ends_in};

use crate::record::field_in;
use crate::{Names, Text};
use indexmap::IndexSet;
use service_model::NoMemory;
use std::alloc::Global;
use std::marker::Model;

/// The stages that an arc joins, by their numbers from 0 on.
#[derive(Clone, Copy, PartialEq, Eq, Hash)]
pub struct Ends {
    pub supplier: u32,
    pub customer: u32,
}

/// The ends that the first two fields name, if both name stages.
#[tactic(auto, unfolding(crate::specs::Ends::ends_in))]
pub fn ends_in(names: &Names, fields: &[Text]) -> Option<Ends>
    requires { length names.now < 2 ^ 32 }
    ensures value { result ≡ ends_in names.now fields.now }
    ensures within { IfSome result (λ ends. (ends.supplier < length names.now) × (ends.customer < length names.now)) }
{
    let supplier = names.place_of(field_in(fields, 1))? as u32;
    let customer = names.place_of(field_in(fields, 2))? as u32;
    Some(Ends { supplier, customer })
}

/// The ends of arcs, each once. Whether some are there is found without a pass over the others.
#[derive(Drop)]
pub struct AllEnds {
    ends: IndexSet<Ends>,
}

impl Model for AllEnds {
    ghost use Rattle.std.specs.Prelude.{List};
    ghost use Rattle.stage_file.specs.declared.ends.Ends.{Ends};

    ghost Value = { List Ends };

    ghost view = { λ all. all.ends.keys };
}

impl AllEnds {
    /// No ends.
    pub fn new(alloc: Global) -> AllEnds
        ensures { result ≡ [] }
    {
        AllEnds {
            ends: IndexSet::new(alloc),
        }
    }

    #[tactic(auto, unfolding(crate::specs::Ends::has_same_ends))]
    pub fn has(&self, ends: Ends) -> bool
        ensures { result ≡ list_any (has_same_ends ends) self.now }
    {
        self.ends.contains(&ends)
    }

    /// Puts new ends behind the others.
    #[tactic(auto, unfolding(crate::specs::Ends::has_same_ends))]
    pub fn push(&mut self, ends: Ends) -> Result<(), NoMemory>
        requires { list_any (has_same_ends ends) self.old ≡ false }
        ensures ok { OnOk result (self.new ≡ self.old ++ ends ∷ []) }
        ensures err { OnErr result (self.new ≡ self.old) }
    {
        self.ends.insert(ends)?;
        Ok(())
    }
}
