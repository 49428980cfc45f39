// The first node of a search.
ghost use Rattle.std.specs.Prelude.{◌≡◌, ◌+◌, ◌-◌, ◌≤◌, ◌^◌, IfOk, OnOk, [], length};
ghost use Rattle.range_branch.specs.Progress.{IsGiven, IsProgress};
ghost use Rattle.range_branch.specs.First.{HasOneLeaf, IsFirst};

use crate::progress::{Given, Progress};
use incumbent_repair::best_repair;
use open_leaves::{Leaf, Leaves};
use range_nodes::{Made, made_node};
use service_model::{List, NoMemory, Plan, Range};
use std::alloc::Global;
use step_ledger::Steps;
use table_pool::Pool;

// The leaves of a search of one node.
fn one_leaf(alloc: Global, bound: u64) -> Result<Leaves, NoMemory>
    ensures { IfOk result (HasOneLeaf bound) }
{
    let mut leaves = Leaves::new(alloc);
    leaves.insert(Leaf { bound, node: 0 })?;
    Ok(leaves)
}

// A search of one node.
fn progress_of(
    alloc: Global,
    range: Range,
    made: Made,
    found: Option<Plan>,
) -> Result<Progress, NoMemory>
    ensures { IfOk result (IsFirst range made found) }
{
    let leaves = one_leaf(alloc, made.bound)?;
    let mut nodes = List::new(alloc);
    nodes.push(made.node)?;
    let mut ranges = List::new(alloc);
    ranges.push(range)?;
    Ok(Progress {
        nodes,
        splits: List::new(alloc),
        ranges,
        leaves,
        found,
    })
}

/// The search whose only node is the whole range.
pub fn first_progress<L>(
    alloc: Global,
    given: &Given<'_>,
    pool: &mut Pool,
    steps: &mut Steps<L>,
) -> Result<Progress, NoMemory>
    requires given { IsGiven given.now }
    requires pool { pool.old ≡ [] }
    requires room { steps.old ≤ 2 ^ 63 - 40000000 }
    ensures progress { IfOk result (IsProgress given.now.network.now given.now.forest.now given.now.budget pool.new) }
    ensures steps { OnOk result (steps.new ≡ steps.old + length pool.new) }
    ensures later { steps.old ≤ steps.new }
    ensures few { steps.new ≤ steps.old + length given.now.network.now.stages }
{
    let range = given.network.whole(alloc)?;
    let made = made_node(alloc, given.network, given.forest, &range, pool, steps)?;
    let found = best_repair(alloc, given.network, given.order, &made.node.relaxed)?;
    let progress = progress_of(alloc, range, made, found)?;
    Ok(progress)
}
