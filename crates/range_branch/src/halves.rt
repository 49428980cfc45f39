// The halves of a range, at the arc that its relaxed plan breaks most.
ghost use Rattle.std.specs.Prelude.{◌≡◌, ◌+◌, ◌<◌, ◌≤◌, ◌^◌, IfOk, IfSome, length};
ghost use Rattle.service_model.specs.Plans.{HasTimes};
ghost use Rattle.service_model.specs.Ranges.{HasIntervals, HoldsTime};
ghost use Rattle.tree_order.specs.Forest.{IsForest};
ghost use Rattle.range_nodes.specs.Nodes.{AreSearched};

use crate::progress::Given;
use range_nodes::{Made, made_node};
use range_splits::{broken_arc, cut_time, halves};
use service_model::{Network, NoMemory, Plan, Range, Split};
use std::alloc::Global;
use step_ledger::Steps;
use table_pool::Pool;

// A split, and the last outbound time of the supplier's left half.
#[derive(Clone, Copy, Drop)]
pub(crate) struct Cutting {
    pub split: Split,
    pub last: u16,
}

// The halves of a range, and the nodes that they were made.
#[derive(Drop)]
pub(crate) struct Halves {
    pub left: Range,
    pub right: Range,
    pub left_made: Made,
    pub right_made: Made,
}

ghost use Rattle.range_splits.specs.Breaks.{IsMostBroken};
ghost use Rattle.range_branch.specs.Steps.{IsCutting, CutBy, AreHalves};

// The split at an arc that the plan breaks.
fn cutting_at(network: &Network, node: u32, plan: &Plan, arc: u32) -> Cutting
    requires there { arc < length network.now.arcs }
    requires times { HasTimes network.now plan.now }
    ensures { IsMostBroken network.now plan.now arc → IsCutting network.now node plan.now result }
{
    let broken = network.arcs().get(arc as usize);
    Cutting {
        split: Split {
            node,
            supplier: broken.supplier,
            customer: broken.customer,
        },
        last: cut_time(plan, broken),
    }
}

/// How a node is split by its relaxed plan: at the arc that the plan breaks most, none where it breaks none.
pub fn cutting_of(network: &Network, node: u32, relaxed: &Option<Plan>) -> Option<Cutting>
    requires { IfSome relaxed.now (HasTimes network.now) }
    ensures { CutBy network.now node relaxed.now result }
{
    let plan = relaxed.as_ref()?;
    let arc = broken_arc(network, plan)?;
    Some(cutting_at(network, node, plan, arc))
}

/// The halves of a range, each made a node.
pub fn made_halves<L>(
    alloc: Global,
    given: &Given<'_>,
    range: &Range,
    cutting: Cutting,
    pool: &mut Pool,
    steps: &mut Steps<L>,
) -> Result<Halves, NoMemory>
    requires forest { IsForest (length given.now.network.now.stages) given.now.network.now.arcs given.now.forest.now }
    requires intervals { HasIntervals given.now.network.now range.now }
    requires holds { HoldsTime range.now cutting.split.supplier cutting.last }
    requires next { HoldsTime range.now cutting.split.supplier (cutting.last + 1) }
    requires pool { AreSearched given.now.network.now pool.old }
    requires many { length pool.old + length given.now.network.now.stages + length given.now.network.now.stages < 2 ^ 32 }
    requires room { steps.old + length given.now.network.now.stages + length given.now.network.now.stages ≤ 2 ^ 63 }
    ensures halves { IfOk result (AreHalves given.now.network.now given.now.forest.now range.now cutting pool.old pool.new steps.old steps.new) }
    ensures later { steps.old ≤ steps.new }
    ensures few { steps.new ≤ steps.old + length given.now.network.now.stages + length given.now.network.now.stages }
{
    let Given {
        network,
        forest,
        ..
    } = *given;
    let (left, right) = halves(alloc, network, range, cutting.split.supplier, cutting.last)?;
    let left_made = made_node(alloc, network, forest, &left, pool, steps)?;
    let right_made = made_node(alloc, network, forest, &right, pool, steps)?;
    Ok(Halves {
        left,
        right,
        left_made,
        right_made,
    })
}
