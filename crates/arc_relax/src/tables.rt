// The tables of all stages, children first.
ghost use Rattle.std.specs.Prelude.{◌≡◌, ◌+◌, ◌<◌, ◌≤◌, ◌^◌, IfOk, OnErr, length};
ghost use Rattle.table_pool.specs.Pools.{IsPool};
ghost use Rattle.arc_relax.specs.Nodes.{IsNode};
ghost use Rattle.arc_relax.specs.StageTables.{AreMade, IsGrown};

use crate::node::{Node, wanted_of};
use service_model::NoMemory;
use std::alloc::Global;
use step_ledger::Steps;
use table_pool::Pool;

/// The number of each stage's table, which the pool gets where it does not hold it.
pub fn numbers_of<L>(
    alloc: Global,
    node: &Node,
    pool: &mut Pool,
    steps: &mut Steps<L>,
) -> Result<Vec<u32>, NoMemory>
    requires node { IsNode node.now }
    requires pool { IsPool node.now.network.now pool.old }
    requires many { length pool.old + length node.now.network.now.stages < 2 ^ 32 }
    requires room { steps.old + length node.now.network.now.stages ≤ 2 ^ 63 }
    ensures ok { IfOk result (λ numbers. AreMade node.now.network.now node.now.range.now node.now.forest.now pool.old pool.new steps.old steps.new numbers.items (length node.now.network.now.stages)) }
    ensures err { OnErr result (IsGrown node.now.network.now pool.old pool.new steps.old steps.new) }
{
    let mut numbers = vec![in alloc; 0u32; node.network.stages().len()]?;
    'stages: for stage in node.forest.order.as_slice() {
        let wanted = wanted_of(alloc, node, &numbers, *stage)?;
        let id = pool.find_or_fill(node.network, &wanted, steps)?;
        numbers[*stage as usize] = id;
    }
    Ok(numbers)
}
