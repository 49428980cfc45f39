// The first rule on splits that fails.
ghost use Rattle.std.specs.Prelude.{◌≡◌, ◌↔◌, IfOk, IfSome, IsTrue};
ghost use Rattle.service_model.specs.Plans.{HasTimes, Feasible};
ghost use Rattle.service_model.specs.Ranges.{HasIntervals};
ghost use Rattle.service_model.specs.LocalSums.{Sound};
ghost use Rattle.service_model.specs.Nodes.{IsNode};
ghost use Rattle.service_model.specs.Repairs.{Found};
ghost use Rattle.service_model.specs.Held.{Held, node_at, relaxed_of, range_of, bound_at};
ghost use Rattle.service_model.specs.Earned.{IsNext};
ghost use Rattle.service_model.specs.CertRules.{SplitRule, IsFirstOf};

use crate::arcs::breaks_arc;
use crate::leaves::Leaf;
use crate::relaxed::is_relaxed;
use service_model::cert_rules::{SPLIT_ARC, SPLIT_LATE, SPLIT_NODE, SPLIT_PLAN};
use service_model::{INF, Network, NoMemory, Node, Plan, Range, Split, Table};
use std::alloc::Global;

/// The node that is split next.
#[derive(Clone, Copy, Drop)]
pub struct Next<'a> {
    /// Its number and its bound.
    pub leaf: Leaf,
    pub node: &'a Node,
    pub range: &'a Range,
}

ghost use Rattle.split_rules.specs.Relaxed.{IsOpenAt};

// Whether the bound is below `INF`, and below the cost of the plan found where there is one.
fn is_open(network: &Network, found: &Option<Plan>, bound: u64) -> bool
    requires { IfSome found.now (Feasible network.now) }
    ensures { IsTrue result ↔ IsOpenAt network.now found.now bound }
{
    bound < INF
        && match found {
            None => true,
            Some(plan) => bound < network.cost(plan),
        }
}

/// The first rule on splits that fails, none where all hold.
pub fn split_fault(
    alloc: Global,
    network: &Network,
    next: Next<'_>,
    tables: &[Table],
    found: &Option<Plan>,
    split: Split,
) -> Result<Option<u8>, NoMemory>
    requires sound { Sound network.now tables.now }
    requires node { IsNode network.now tables.now next.range.now next.node.now.roots }
    requires times { IfSome next.node.now.relaxed (HasTimes network.now) }
    requires range { HasIntervals network.now next.range.now }
    requires found { IfSome found.now (Feasible network.now) }
    ensures first { (h : Held) → h.tables ≡ tables.now → IsNext network.now h next.entry.leaf.node → bound_at h next.entry.leaf.node ≡ next.entry.leaf.bound
        → node_at h.nodes next.entry.leaf.node ≡ next.entry.node.now → range_of network.now h next.entry.leaf.node ≡ next.entry.range.now
        → Found network.now (relaxed_of h) found.now → IfOk result (IsFirstOf (SplitRule network.now h split)) }
{
    if split.node != next.leaf.node {
        return Ok(Some(SPLIT_NODE));
    }
    if !is_open(network, found, next.leaf.bound) {
        return Ok(Some(SPLIT_LATE));
    }
    let Some(plan) = &next.node.relaxed else {
        return Ok(Some(SPLIT_PLAN));
    };
    if !is_relaxed(alloc, network, &next, tables, plan)? {
        return Ok(Some(SPLIT_PLAN));
    }
    if !breaks_arc(network, plan, split) {
        return Ok(Some(SPLIT_ARC));
    }
    Ok(None)
}
