// The two halves of a range.
ghost use Rattle.std.specs.Prelude.{◌≡◌, ◌+◌, ◌-◌, ◌<◌, IfOk, length};
ghost use Rattle.service_model.specs.Plans.{inbound_at};
ghost use Rattle.service_model.specs.Ranges.{HasIntervals, HoldsTime, ended, started};

use service_model::{Network, NoMemory, Plan, Range, SupplyArc};
use std::alloc::Global;

/// The last outbound time of the arc's supplier that the plan's customer waits for, 0 where it waits for none.
pub fn cut_time(plan: &Plan, arc: &SupplyArc) -> u16
    requires { arc.now.customer < length plan.now.inbound }
    ensures { result ≡ inbound_at plan.now arc.now.customer - arc.now.transit }
{
    let inbound = *plan.inbound.get(arc.customer as usize);
    inbound.saturating_sub(arc.transit)
}

/// The range with a stage's interval ended at a time, and with it started behind that time.
pub fn halves(
    alloc: Global,
    network: &Network,
    range: &Range,
    stage: u32,
    last: u16,
) -> Result<(Range, Range), NoMemory>
    requires intervals { HasIntervals network.now range.now }
    requires holds { HoldsTime range.now stage last }
    requires next { HoldsTime range.now stage (last + 1) }
    ensures halves { IfOk result (λ both. (both.0 ≡ ended range.now stage last) × (both.1 ≡ started range.now stage last)) }
    ensures intervals { IfOk result (λ both. HasIntervals network.now both.0 × HasIntervals network.now both.1) }
{
    let _horizon = network.horizon();
    let mut left = range.copy(alloc)?;
    left.halve(stage, last, false);
    let mut right = range.copy(alloc)?;
    right.halve(stage, last, true);
    Ok((left, right))
}
