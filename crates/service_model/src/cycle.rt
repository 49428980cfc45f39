// The lowest stage that reaches itself.
ghost use Rattle.std.specs.Prelude.{◌<◌, ◌^◌, ◌↔◌, All, IfOk, IsTrue};
ghost use Rattle.service_model.specs.Walks.{ReachesItself, IsFirstOnCycle};

use crate::links::Links;
use crate::marks::{mark_all, no_marks};
use crate::order::front;
use crate::{List, NoMemory, SupplyArc};
use std::alloc::Global;

/// Whether the stage reaches itself along arcs.
fn reaches_itself(alloc: Global, links: &Links, stage: u32) -> Result<bool, NoMemory>
    requires { stage < links.now.stages }
    ensures { IfOk result (λ answer. IsTrue answer ↔ ReachesItself links.now.arcs.now stage) }
{
    let mut seen = no_marks(alloc, links.stages)?;
    let mut queue = List::new(alloc);
    mark_all(links.customers_of(stage), &mut seen, &mut queue)?;
    let mut at = 0;
    'turns: while at < queue.len() {
        mark_all(links.customers_of(*queue.get(at)), &mut seen, &mut queue)?;
        at += 1;
    }
    Ok(*seen.get(stage as usize))
}

/// The lowest stage that reaches itself, by a search from each stage.
fn lowest_on_cycle(alloc: Global, links: &Links) -> Result<Option<u32>, NoMemory>
    ensures { IfOk result (IsFirstOnCycle links.now.stages links.now.arcs.now) }
{
    for stage in 0..links.stages {
        if reaches_itself(alloc, links, stage as u32)? {
            return Ok(Some(stage as u32));
        }
    }
    Ok(None)
}

/// The lowest stage that reaches itself along arcs, none where no stage does. Both ends of each arc are among so many
/// stages. Without a cycle one pass over the arcs tells so; else a search from each stage looks for the lowest.
pub fn first_on_cycle(
    alloc: Global,
    stages: usize,
    arcs: &[SupplyArc],
) -> Result<Option<u32>, NoMemory>
    requires few { stages < 2 ^ 32 }
    requires ends { All (λ a. (a.supplier < stages) × (a.customer < stages)) arcs.now }
    ensures first { IfOk result (IsFirstOnCycle stages arcs.now) }
{
    let links = Links::new(alloc, stages, arcs)?;
    let order = front(alloc, &links)?;
    if order.len() == stages {
        return Ok(None);
    }
    lowest_on_cycle(alloc, &links)
}
