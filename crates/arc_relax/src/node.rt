// A range over a forest, and the table that each stage is to have there.
ghost use Rattle.std.specs.Prelude.{◌≡◌, ◌+◌, ◌<◌, ◌≤◌, ◌^◌, All, IfOk, OnErr, length, map, slice_index};
ghost use Rattle.service_model.specs.Ranges.{HasIntervals};
ghost use Rattle.tree_order.specs.Forest.{IsForest};
ghost use Rattle.table_pool.specs.Pools.{IsPool};
ghost use Rattle.arc_relax.specs.StageTables.{IsWantedOf, AreMade, IsGrown};

use crate::kinds::kinds_of;
use service_model::{Kind, List, Network, NoMemory, Range};
use std::alloc::Global;
use step_ledger::Steps;
use table_pool::Pool;
use tree_order::Forest;
use tree_tables::{ChildList, Wanted};

/// A range over a forest, with the kind and the floor of each stage's table.
#[derive(Drop)]
pub struct Node<'a> {
    pub network: &'a Network,
    pub forest: &'a Forest,
    pub range: &'a Range,
    pub kinds: List<Kind>,
    pub floors: List<u16>,
}

ghost use Rattle.arc_relax.specs.Nodes.{IsNode, IsOf};

/// The kinds and the floors of all stages, by a pass over the arcs each.
pub fn node_of<'a>(
    alloc: Global,
    network: &'a Network,
    forest: &'a Forest,
    range: &'a Range,
) -> Result<Node<'a>, NoMemory>
    requires forest { IsForest (length network.now.stages) network.now.arcs forest.now }
    requires range { HasIntervals network.now range.now }
    ensures node { IfOk result IsNode }
    ensures parts { IfOk result (IsOf network.now forest.now range.now) }
{
    Ok(Node {
        network,
        forest,
        range,
        kinds: kinds_of(alloc, network, forest)?,
        floors: network.floors(alloc, range)?,
    })
}

// The numbers of the tables of these stages.
fn children_of(alloc: Global, stages: &[u32], numbers: &[u32]) -> Result<ChildList, NoMemory>
    requires { All (λ c. c < length numbers.now) stages.now }
    ensures { IfOk result (λ children. children.items ≡ map (λ c. slice_index numbers.now c) stages.now) }
{
    let mut children = ChildList::new(alloc);
    'stages: for stage in stages {
        children.push(numbers[*stage as usize])?;
    }
    Ok(children)
}

/// The table that a stage is to have, over the tables of its children.
pub fn wanted_of(
    alloc: Global,
    node: &Node,
    numbers: &[u32],
    stage: u32,
) -> Result<Wanted, NoMemory>
    requires node { IsNode node.now }
    requires stage { stage < length node.now.network.now.stages }
    requires numbers { length numbers.now ≡ length node.now.network.now.stages }
    ensures { IfOk result (IsWantedOf node.now.network.now node.now.range.now node.now.forest.now numbers.now stage) }
{
    let at = stage as usize;
    Ok(Wanted {
        stage,
        kind: *node.kinds.get(at),
        least: *node.range.least.get(at),
        most: *node.range.most.get(at),
        floor: *node.floors.get(at),
        children: children_of(alloc, node.forest.children.get(at).as_slice(), numbers)?,
    })
}
