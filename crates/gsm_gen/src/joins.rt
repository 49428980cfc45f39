// The arcs of a trial network as they are added.
ghost use Rattle.std.specs.Prelude.{◌≡◌, [], OnOk};
ghost use Rattle.gsm_gen.specs.Joins.{HasEnds, with_arc};

use indexmap::IndexSet;
use service_model::{List, NoMemory};
use std::alloc::Global;
use trial_rows::TrialArc;

/// Arcs in their order, with their ends, so that whether one joins two stages is found without a pass over them.
#[derive(Drop)]
pub struct Joins {
    pub arcs: List<TrialArc>,
    pub ends: IndexSet<(u32, u32)>,
}

impl Joins {
    /// No arcs.
    pub fn new(alloc: Global) -> Joins
        ensures none { result.arcs ≡ [] }
        ensures ends { HasEnds result }
    {
        Joins {
            arcs: List::new(alloc),
            ends: IndexSet::new(alloc),
        }
    }

    /// Puts an arc at the end, unless one joins the same stages.
    pub fn add(&mut self, arc: TrialArc) -> Result<(), NoMemory>
        requires { HasEnds self.old }
        ensures arcs { OnOk result (self.new.arcs ≡ with_arc self.old.arcs arc) }
        ensures ends { OnOk result (HasEnds self.new) }
    {
        let lower = arc.supplier.min(arc.customer);
        let upper = arc.supplier.max(arc.customer);
        if self.ends.insert((lower, upper))? {
            self.arcs.push(arc)?;
        }
        Ok(())
    }
}
