// The halves of a node's range at a split.
ghost use Rattle.std.specs.Prelude.{◌≡◌, ◌+◌, IfOk};
ghost use Rattle.service_model.specs.Plans.{HasTimes};
ghost use Rattle.service_model.specs.Tables.{Supplies};
ghost use Rattle.service_model.specs.Ranges.{HasIntervals, HoldsTime};

use crate::arcs::last_of;
use service_model::{Network, NoMemory, Plan, Range, Split};
use std::alloc::Global;

/// The two ranges that a split makes of one.
#[derive(Drop)]
pub struct Halves {
    /// The earlier outbound times of the split's supplier.
    pub left: Range,
    /// The later ones.
    pub right: Range,
}

ghost use Rattle.split_rules.specs.Halves.{last_of, AreHalves};

/// The halves of a range at a split, by the relaxed plan that breaks the split's arc: up to the last outbound time of the supplier that
/// the plan's customer waits for, and behind it.
pub fn halves_of(
    alloc: Global,
    network: &Network,
    range: &Range,
    plan: &Plan,
    split: Split,
) -> Result<Halves, NoMemory>
    requires times { HasTimes network.now plan.now }
    requires arc { Supplies network.now.arcs split.supplier split.customer }
    requires intervals { HasIntervals network.now range.now }
    requires holds { HoldsTime range.now split.supplier (last_of network.now plan.now split) }
    requires next { HoldsTime range.now split.supplier (last_of network.now plan.now split + 1) }
    ensures { IfOk result (AreHalves network.now range.now plan.now split) }
{
    let last = last_of(network, plan, split);
    let mut left = range.copy(alloc)?;
    left.halve(split.supplier, last, false);
    let mut right = range.copy(alloc)?;
    right.halve(split.supplier, last, true);
    Ok(Halves { left, right })
}
