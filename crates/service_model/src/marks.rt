// A search that marks each stage that it puts into its queue.
ghost use Rattle.std.specs.Prelude.{◌≡◌, ◌<◌, All, IfOk, OnOk, length, replicate, false};
ghost use Rattle.service_model.specs.Marks.{Marks, MarksOne, MarksAll};

use crate::{List, NoMemory};
use std::alloc::Global;

/// No stage is marked.
pub fn no_marks(alloc: Global, stages: usize) -> Result<List<bool>, NoMemory>
    ensures { IfOk result (λ seen. seen ≡ replicate stages false) }
{
    Ok(List::from_vec(vec![in alloc; false; stages]?))
}

fn mark_one(stage: u32, seen: &mut List<bool>, queue: &mut List<u32>) -> Result<(), NoMemory>
    requires { stage < length seen.old }
    ensures { OnOk result (MarksOne stage seen.old seen.new queue.old queue.new) }
{
    if !*seen.get(stage as usize) {
        seen.set(stage as usize, true);
        queue.push(stage)?;
    }
    Ok(())
}

/// Marks the stages that are not marked, and puts them at the queue's end.
pub fn mark_all(
    stages: &[u32],
    seen: &mut List<bool>,
    queue: &mut List<u32>,
) -> Result<(), NoMemory>
    requires there { All (λ c. c < length seen.old) stages.now }
    requires marks { Marks seen.old queue.old }
    ensures { OnOk result (MarksAll stages.now seen.old seen.new queue.old queue.new) }
{
    for stage in stages {
        mark_one(*stage, seen, queue)?;
    }
    Ok(())
}
