// Ranges of outbound times, which contracts see as they are.
ghost use Rattle.std.specs.Prelude.{◌≡◌, ◌+◌, IfOk, IsTrue};

use crate::{List, NoMemory};
use std::alloc::Global;

/// An interval of outbound times for each stage, in the order of the stages.
#[derive(Drop)]
pub struct Range {
    pub least: List<u16>,
    pub most: List<u16>,
}

impl Range {
    ghost use Rattle.service_model.specs.Net.{Net};
    ghost use Rattle.service_model.specs.Ranges.{HoldsTime, half_of, HasIntervals};

    /// An equal range.
    pub fn copy(&self, alloc: Global) -> Result<Range, NoMemory>
        ensures { IfOk result (λ range. range ≡ self.now) }
    {
        Ok(Range {
            least: List::copied(alloc, self.least.as_slice())?,
            most: List::copied(alloc, self.most.as_slice())?,
        })
    }

    /// Keeps a half of a stage's interval: the times up to `at`, or, for the right half, the times after it.
    pub fn halve(&mut self, supplier: u32, at: u16, right: bool)
        requires holds { HoldsTime self.old supplier at }
        requires next { IsTrue right → HoldsTime self.old supplier (at + 1) }
        ensures half { self.new ≡ half_of right self.old supplier at }
        ensures intervals { (n : Net) → HasIntervals n self.old → HasIntervals n self.new }
    {
        if right {
            // A time after `at` is in the interval, so that `at + 1` is a `u16`.
            let _most = *self.most.get(supplier as usize);
            self.least.set(supplier as usize, at + 1);
        } else {
            self.most.set(supplier as usize, at);
        }
    }
}
