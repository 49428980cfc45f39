// A leaf gives way to the two halves of its range.
ghost use Rattle.std.specs.Prelude.{◌≡◌, ◌+◌, ◌-◌, ◌*◌, ◌<◌, ◌≤◌, ◌^◌, IfOk, IfSome, OnOk, None, length};
ghost use Rattle.service_model.specs.Plans.{Feasible};
ghost use Rattle.service_model.specs.Orders.{IsTopological};
ghost use Rattle.service_model.specs.Repairs.{IsRepairable};
ghost use Rattle.range_splits.specs.Open.{IsLeastOf, IsEndingOf};
ghost use Rattle.range_branch.specs.Progress.{IsGiven, IsProgress, IsSplit, IsFoundMore, AreReplaced};

use crate::halves::{Halves, cutting_of, made_halves};
use crate::progress::{Given, Progress};
use incumbent_repair::{best_repair, keep_better};
use open_leaves::{Leaf, Leaves};
use service_model::{NoMemory, Plan, Split};
use std::alloc::Global;
use step_ledger::Steps;
use table_pool::Pool;

// Keeps the better one of the plan found and the best repair of a node's relaxed plan.
fn find_more(
    alloc: Global,
    given: &Given<'_>,
    relaxed: &Option<Plan>,
    found: &mut Option<Plan>,
) -> Result<(), NoMemory>
    requires order { IsTopological (length given.now.network.now.stages) given.now.network.now.arcs given.now.order.now }
    requires relaxed { IfSome relaxed.now (IsRepairable given.now.network.now) }
    requires found { IfSome found.old (Feasible given.now.network.now) }
    ensures more { OnOk result (IsFoundMore given.now.network.now relaxed.now found.old found.new) }
    ensures feasible { OnOk result (IfSome found.new (Feasible given.now.network.now)) }
{
    let next = best_repair(alloc, given.network, given.order, relaxed)?;
    keep_better(given.network, found, next);
    Ok(())
}

// The first leaf gives way to two others.
fn replace_least(leaves: &mut Leaves, leaf: Leaf, left: Leaf, right: Leaf) -> Result<(), NoMemory>
    requires { IsLeastOf leaves.old leaf }
    ensures { OnOk result (AreReplaced leaves.old leaves.new leaf left right) }
{
    let _least = leaves.take_least();
    leaves.insert(left)?;
    leaves.insert(right)?;
    Ok(())
}

// The search with the halves in the place of the first leaf.
fn with_halves(
    alloc: Global,
    given: &Given<'_>,
    progress: Progress,
    leaf: Leaf,
    split: Split,
    halves: Halves,
) -> Result<Progress, NoMemory>
    requires order { IsTopological (length given.now.network.now.stages) given.now.network.now.arcs given.now.order.now }
    requires least { IsLeastOf progress.leaves leaf }
    requires few { length progress.nodes + 2 < 2 ^ 32 }
    requires left { IfSome halves.left_made.node.relaxed (IsRepairable given.now.network.now) }
    requires right { IfSome halves.right_made.node.relaxed (IsRepairable given.now.network.now) }
    requires found { IfSome progress.found (Feasible given.now.network.now) }
    ensures { IfOk result (λ next. IsSplit given.now.network.now progress next leaf split halves) }
{
    let Progress {
        mut nodes,
        mut splits,
        mut ranges,
        mut leaves,
        mut found,
    } = progress;
    let Halves {
        left,
        right,
        left_made,
        right_made,
    } = halves;
    let node = nodes.len() as u32;
    let left_leaf = Leaf {
        bound: left_made.bound,
        node,
    };
    let right_leaf = Leaf {
        bound: right_made.bound,
        node: node + 1,
    };
    replace_least(&mut leaves, leaf, left_leaf, right_leaf)?;
    find_more(alloc, given, &left_made.node.relaxed, &mut found)?;
    find_more(alloc, given, &right_made.node.relaxed, &mut found)?;
    nodes.push(left_made.node)?;
    nodes.push(right_made.node)?;
    splits.push(split)?;
    ranges.push(left)?;
    ranges.push(right)?;
    Ok(Progress {
        nodes,
        splits,
        ranges,
        leaves,
        found,
    })
}

/// The search in which the first leaf is split, where it has not ended.
pub fn split_leaf<L>(
    alloc: Global,
    given: &Given<'_>,
    progress: Progress,
    leaf: Leaf,
    pool: &mut Pool,
    steps: &mut Steps<L>,
) -> Result<Progress, NoMemory>
    requires given { IsGiven given.now }
    requires progress { IsProgress given.now.network.now given.now.forest.now given.now.budget pool.old progress }
    requires least { IsLeastOf progress.leaves leaf }
    requires unended { IsEndingOf given.now.network.now progress.found leaf.bound (length progress.nodes) given.now.budget None }
    requires room { steps.old ≤ 2 ^ 63 - 40000000 + length pool.old }
    ensures progress { IfOk result (λ next. IsProgress given.now.network.now given.now.forest.now given.now.budget pool.new next
        × (length next.nodes ≡ length progress.nodes + 2)) }
    ensures steps { OnOk result (steps.new + length pool.old ≡ steps.old + length pool.new) }
    ensures later { steps.old ≤ steps.new }
    ensures few { steps.new ≤ steps.old + length given.now.network.now.stages + length given.now.network.now.stages }
{
    let _stages = given.network.stages().len();
    let node = progress.nodes.get(leaf.node as usize);
    let Some(cutting) = cutting_of(given.network, leaf.node, &node.relaxed) else {
        unreachable!()
    };
    let range = progress.ranges.get(leaf.node as usize);
    let halves = made_halves(alloc, given, range, cutting, pool, steps)?;
    let next = with_halves(alloc, given, progress, leaf, cutting.split, halves)?;
    Ok(next)
}
