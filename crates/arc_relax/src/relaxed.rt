// A range relaxed over a forest.
ghost use Rattle.std.specs.Prelude.{◌≡◌, ◌+◌, ◌<◌, ◌≤◌, ◌^◌, IfOk, OnErr, length};
ghost use Rattle.std.specs.List.{AllByRecursion};
ghost use Rattle.service_model.specs.Ranges.{HasIntervals};
ghost use Rattle.service_model.specs.Nodes.{AreTightBelow};
ghost use Rattle.gsm_laws.specs.Traces.{IsWhole};
ghost use Rattle.tree_order.specs.Forest.{IsForest};
ghost use Rattle.table_pool.specs.Pools.{IsPool};
ghost use Rattle.arc_relax.specs.StageTables.{IsGrown};

use crate::node::{Node, node_of};
use crate::plans::plan_below;
use crate::roots::{bound_at, roots_of};
use crate::tables::numbers_of;
use service_model::{List, Network, NoMemory, Plan, Range};
use std::alloc::Global;
use step_ledger::Steps;
use table_pool::Pool;
use tree_order::Forest;
use tree_tables::Filled;

/// What a range costs at least, with the arcs left out that the forest drops.
#[derive(Drop)]
pub struct Relaxed {
    /// The numbers of the tables of the forest's roots.
    pub roots: List<u32>,
    /// The least cost, `INF` where no plan of the range meets the kept arcs.
    pub bound: u64,
    /// A plan of the range that meets the kept arcs and costs the bound, where that is below `INF`.
    pub plan: Option<Plan>,
}

ghost use Rattle.arc_relax.specs.Nodes.{IsNode};
ghost use Rattle.arc_relax.specs.Relaxations.{IsRead, IsRelaxed};

// The bound of the roots, and a plan that costs it.
fn relaxed_at(
    alloc: Global,
    network: &Network,
    made: &[Filled],
    roots: List<u32>,
) -> Result<Relaxed, NoMemory>
    requires tight { AllByRecursion (AreTightBelow network.now made.now) roots }
    requires whole { IsWhole network.now made.now roots }
    ensures { IfOk result (IsRead network.now made.now roots) }
{
    let bound = bound_at(made, roots.as_slice());
    let plan = plan_below(alloc, network, made, roots.as_slice(), bound)?;
    Ok(Relaxed { roots, bound, plan })
}

// The relaxed node, whose tables the pool gets where it does not hold them.
fn relax_node<L>(
    alloc: Global,
    node: &Node,
    pool: &mut Pool,
    steps: &mut Steps<L>,
) -> Result<Relaxed, NoMemory>
    requires node { IsNode node.now }
    requires pool { IsPool node.now.network.now pool.old }
    requires many { length pool.old + length node.now.network.now.stages < 2 ^ 32 }
    requires room { steps.old + length node.now.network.now.stages ≤ 2 ^ 63 }
    ensures ok { IfOk result (IsRelaxed node.now.network.now node.now.forest.now node.now.range.now pool.old pool.new steps.old steps.new) }
    ensures err { OnErr result (IsGrown node.now.network.now pool.old pool.new steps.old steps.new) }
{
    let numbers = numbers_of(alloc, node, pool, steps)?;
    let roots = roots_of(
        alloc,
        node.forest.order.as_slice(),
        node.forest.parent.as_slice(),
        &numbers,
    )?;
    relaxed_at(alloc, node.network, pool.filled(), roots)
}

/// The least cost of the plans of a range that meet the kept arcs. The pool gets the tables that it does not hold.
pub fn relax<L>(
    alloc: Global,
    network: &Network,
    forest: &Forest,
    range: &Range,
    pool: &mut Pool,
    steps: &mut Steps<L>,
) -> Result<Relaxed, NoMemory>
    requires forest { IsForest (length network.now.stages) network.now.arcs forest.now }
    requires range { HasIntervals network.now range.now }
    requires pool { IsPool network.now pool.old }
    requires many { length pool.old + length network.now.stages < 2 ^ 32 }
    requires room { steps.old + length network.now.stages ≤ 2 ^ 63 }
    ensures ok { IfOk result (IsRelaxed network.now forest.now range.now pool.old pool.new steps.old steps.new) }
    ensures err { OnErr result (IsGrown network.now pool.old pool.new steps.old steps.new) }
{
    let node = node_of(alloc, network, forest, range)?;
    relax_node(alloc, &node, pool, steps)
}
