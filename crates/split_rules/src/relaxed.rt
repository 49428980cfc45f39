// The relaxed plan of a node that is split.
ghost use Rattle.std.specs.Prelude.{◌≡◌, ℕ, ◌<◌, ◌↔◌, IfOk, IsTrue, length};
ghost use Rattle.service_model.specs.Plans.{HasTimes, stage_cost, cost_of};
ghost use Rattle.service_model.specs.Ranges.{HasIntervals, AreFloors};
ghost use Rattle.service_model.specs.LocalSums.{Sound};
ghost use Rattle.service_model.specs.Nodes.{IsNode};
ghost use Rattle.service_model.specs.Relaxed.{FitsRange};
ghost use Rattle.split_rules.specs.Relaxed.{FitsAll, IsRelaxedOf};

use crate::faults::Next;
use crate::links::meets_below;
use service_model::{INF, List, Network, NoMemory, Plan, Range, Table};
use std::alloc::Global;

fn stage_cost(network: &Network, plan: &Plan, stage: usize) -> u64
    requires stage { stage < length network.now.stages }
    requires times { HasTimes network.now plan.now }
    ensures { result ≡ stage_cost network.now plan.now stage }
{
    let lead = network.stages().get(stage).lead;
    let ready = *plan.inbound.get(stage) as u32 + lead as u32;
    let outbound = *plan.outbound.get(stage) as u32;
    if outbound <= ready {
        network.cost_at(stage as u32, ready - outbound)
    } else {
        INF
    }
}

fn fits_stage(
    network: &Network,
    range: &Range,
    floors: &List<u16>,
    plan: &Plan,
    stage: usize,
) -> bool
    requires stage { stage < length network.now.stages }
    requires range { HasIntervals network.now range.now }
    requires floors { AreFloors network.now range.now floors.now }
    requires times { HasTimes network.now plan.now }
    ensures { IsTrue result ↔ FitsRange network.now range.now plan.now stage }
{
    let inbound = *plan.inbound.get(stage);
    let outbound = *plan.outbound.get(stage);
    *range.least.get(stage) <= outbound
        && outbound <= *range.most.get(stage)
        && *floors.get(stage) <= inbound
        && inbound <= network.horizon()
        && stage_cost(network, plan, stage) < INF
}

fn fits_all(network: &Network, range: &Range, floors: &List<u16>, plan: &Plan) -> bool
    requires range { HasIntervals network.now range.now }
    requires floors { AreFloors network.now range.now floors.now }
    requires times { HasTimes network.now plan.now }
    ensures { IsTrue result ↔ FitsAll network.now range.now plan.now }
{
    'stages: for stage in 0..network.stages().len() {
        if !fits_stage(network, range, floors, plan, stage) {
            return false;
        }
    }
    true
}

// The cost of a plan that need not meet all arcs.
fn relaxed_cost(network: &Network, plan: &Plan) -> u64
    requires times { HasTimes network.now plan.now }
    requires allowed { (j : ℕ) → j < length network.now.stages → stage_cost network.now plan.now j < INF }
    ensures { result ≡ cost_of network.now plan.now }
{
    let mut total: u64 = 0;
    'stages: for stage in 0..network.stages().len() {
        total += stage_cost(network, plan, stage);
    }
    total
}

/// Whether the plan fits the node's range, meets the arcs between its tables and costs its bound.
pub fn is_relaxed(
    alloc: Global,
    network: &Network,
    next: &Next<'_>,
    tables: &[Table],
    plan: &Plan,
) -> Result<bool, NoMemory>
    requires sound { Sound network.now tables.now }
    requires node { IsNode network.now tables.now next.now.range.now next.now.node.now.roots }
    requires range { HasIntervals network.now next.now.range.now }
    requires times { HasTimes network.now plan.now }
    ensures { IfOk result (λ is. IsTrue is
        ↔ IsRelaxedOf network.now tables.now next.now.range.now next.now.node.now.roots next.now.leaf.bound plan.now) }
{
    let floors = network.floors(alloc, next.range)?;
    if !fits_all(network, next.range, &floors, plan)
        || relaxed_cost(network, plan) != next.leaf.bound
    {
        return Ok(false);
    }
    meets_below(alloc, network, tables, next.node.roots.as_slice(), plan)
}
