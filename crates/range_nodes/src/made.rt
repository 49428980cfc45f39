// A range made a node of a search.
ghost use Rattle.std.specs.Prelude.{◌≡◌, ◌+◌, ◌<◌, ◌≤◌, ◌^◌, IfOk, OnErr, length, reverse};
ghost use Rattle.service_model.specs.Ranges.{HasIntervals};
ghost use Rattle.tree_order.specs.Forest.{IsForest};
ghost use Rattle.arc_relax.specs.StageTables.{IsGrown};

use arc_relax::{Relaxed, relax};
use service_model::{List, Network, NoMemory, Node, Range};
use std::alloc::Global;
use step_ledger::Steps;
use table_pool::Pool;
use tree_order::Forest;

/// A node that a range was made, and its bound.
#[derive(Drop)]
pub struct Made {
    pub node: Node,
    /// What the range costs at least with the dropped arcs left out, `INF` where no plan of it meets the kept ones.
    pub bound: u64,
}

ghost use Rattle.range_nodes.specs.Nodes.{AreSearched, IsMade};

// The node of a relaxed range, behind so many tables. The relaxed roots stand along the forest's order, from the last stage on.
fn node_of(alloc: Global, seen: u32, relaxed: Relaxed) -> Result<Made, NoMemory>
    ensures { IfOk result (λ m. m ≡ record {
      node = record { seen = seen; roots = reverse relaxed.roots; relaxed = relaxed.plan };
      bound = relaxed.bound;
    }) }
{
    let roots = relaxed.roots.as_slice().iter().rev().copied();
    Ok(Made {
        node: Node {
            seen,
            roots: List::from_vec(roots.collect(alloc)?),
            relaxed: relaxed.plan,
        },
        bound: relaxed.bound,
    })
}

/// The range as a node, relaxed over the forest. The pool gets the tables that it does not hold; each is a step.
pub fn made_node<L>(
    alloc: Global,
    network: &Network,
    forest: &Forest,
    range: &Range,
    pool: &mut Pool,
    steps: &mut Steps<L>,
) -> Result<Made, NoMemory>
    requires forest { IsForest (length network.now.stages) network.now.arcs forest.now }
    requires range { HasIntervals network.now range.now }
    requires pool { AreSearched network.now pool.old }
    requires many { length pool.old + length network.now.stages < 2 ^ 32 }
    requires room { steps.old + length network.now.stages ≤ 2 ^ 63 }
    ensures ok { IfOk result (IsMade network.now forest.now range.now pool.old pool.new steps.old steps.new) }
    ensures err { OnErr result (IsGrown network.now pool.old pool.new steps.old steps.new) }
    ensures later { steps.old ≤ steps.new }
    ensures few { steps.new ≤ steps.old + length network.now.stages }
{
    let _stages = network.stages().len();
    let relaxed = relax(alloc, network, forest, range, pool, steps)?;
    node_of(alloc, pool.filled().len() as u32, relaxed)
}
