// The walk over all stages: from each stage to its neighbours, in the order in which the stages were seen.
ghost use Rattle.std.specs.Prelude.{◌≡◌, ◌+◌, ◌<◌, [], length, IfOk, OnOk, false, replicate};
ghost use Rattle.tree_order.specs.Walks.{AreLinks, Sees, Between, Grows, IsWholeWalk};

use crate::links::Links;
use service_model::{List, NoMemory};
use std::alloc::Global;

/// What a walk has seen: which stages, in which order, and the parent of each.
#[derive(Drop)]
pub struct Walk {
    pub marks: List<bool>,
    pub seen: List<u32>,
    pub parent: List<u32>,
}

impl Walk {
    // Nothing is seen.
    fn new(alloc: Global, stages: usize) -> Result<Walk, NoMemory>
        ensures marks { IfOk result (λ walk. walk.marks ≡ replicate stages false) }
        ensures seen { IfOk result (λ walk. walk.seen ≡ []) }
        ensures parent { IfOk result (λ walk. walk.parent ≡ replicate stages 0) }
    {
        Ok(Walk {
            marks: List::from_vec(vec![in alloc; false; stages]?),
            seen: List::new(alloc),
            parent: List::from_vec(vec![in alloc; 0u32; stages]?),
        })
    }

    /// Walks over all stages: the neighbours of what was seen first, and where none is new the lowest stage.
    pub fn over(alloc: Global, links: &Links) -> Result<Walk, NoMemory>
        requires { AreLinks links.now }
        ensures { IfOk result (IsWholeWalk links.now.stages links.now.arcs.now) }
    {
        let mut walk = Walk::new(alloc, links.stages)?;
        'roots: for root in 0..links.stages {
            let first = walk.seen.len();
            walk.see(root as u32, root as u32)?;
            walk.spread(links, first)?;
        }
        Ok(walk)
    }

    // Sees a stage that was not seen, with this parent.
    fn see(&mut self, stage: u32, from: u32) -> Result<(), NoMemory>
        requires marks { stage < length self.old.marks }
        requires parent { stage < length self.old.parent }
        ensures { OnOk result (Sees stage from self.old self.new) }
    {
        if !*self.marks.get(stage as usize) {
            self.marks.set(stage as usize, true);
            self.parent.set(stage as usize, from);
            self.seen.push(stage)?;
        }
        Ok(())
    }

    // Sees the neighbours of the stage at a place.
    fn visit(&mut self, links: &Links, at: usize) -> Result<(), NoMemory>
        requires links { AreLinks links.now }
        requires at { at < length self.old.seen }
        requires between { Between links.now at self.old }
        ensures between { OnOk result (Between links.now (at + 1) self.new) }
        ensures grows { OnOk result (Grows self.old.seen self.new.seen) }
    {
        let from = *self.seen.get(at);
        'links: for number in links.at(from) {
            self.see(links.other_end(*number, from), from)?;
        }
        Ok(())
    }

    // Visits the places from the first on, until none is left.
    fn spread(&mut self, links: &Links, first: usize) -> Result<(), NoMemory>
        requires links { AreLinks links.now }
        requires between { Between links.now first self.old }
        ensures between { OnOk result (Between links.now (length self.new.seen) self.new) }
        ensures grows { OnOk result (Grows self.old.seen self.new.seen) }
    {
        let mut at = first;
        'turns: while at < self.seen.len() {
            self.visit(links, at)?;
            at += 1;
        }
        Ok(())
    }
}
