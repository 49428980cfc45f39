// The ends of a network's arcs.
ghost use Rattle.std.specs.Prelude.{◌≡◌, ℕ, ◌<◌, length, map, IfOk, IfSome, position, is_some};
ghost use Rattle.std.specs.List.{list_any};
ghost use Rattle.service_model.specs.Net.{arc_in};
ghost use Rattle.service_model.specs.Faults.{IsSameEnds};
ghost use Rattle.service_model.specs.ArcEnds.{ends_of, has_these};

use crate::{NoMemory, SupplyArc};
use indexmap::IndexSet;
use std::alloc::Global;
use std::marker::Model;

/// The supplier and the customer of each arc, in the order of the arcs. Where the arc between two stages stands is
/// found without a pass over the others.
#[derive(Drop)]
pub struct ArcEnds {
    pairs: IndexSet<(u32, u32)>,
}

impl Model for ArcEnds {
    ghost use Rattle.std.specs.Prelude.{ℕ, List};

    ghost Value = { List (ℕ × ℕ) };

    ghost view = { λ ends. ends.pairs.keys };
}

impl ArcEnds {
    /// The ends of arcs of which no two have the same.
    pub fn of(alloc: Global, arcs: &[SupplyArc]) -> Result<ArcEnds, NoMemory>
        requires { (a b : ℕ) → a < b → b < length arcs.now → IsSameEnds (arc_in arcs.now a) (arc_in arcs.now b) → ⊥ }
        ensures { IfOk result (λ ends. ends ≡ map ends_of arcs.now) }
    {
        let mut pairs = IndexSet::new(alloc);
        'arcs: for arc in arcs {
            pairs.insert((arc.supplier, arc.customer))?;
        }
        Ok(ArcEnds { pairs })
    }

    /// The place of the arc from a supplier to a customer, from 0 on, if there is one.
    pub fn place_of(&self, supplier: u32, customer: u32) -> Option<usize>
        ensures value { result ≡ position (has_these supplier customer) self.now }
        ensures found { is_some result ≡ list_any (has_these supplier customer) self.now }
        ensures within { IfSome result (λ k. k < length self.now) }
    {
        self.pairs.get_index_of(&(supplier, customer))
    }
}
