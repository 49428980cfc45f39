// The forest of a network, which contracts see as it is.
ghost use Rattle.std.specs.Prelude.{◌≡◌, [], length, All, IfOk};
ghost use Rattle.service_model.specs.Forests.{IsKept};
ghost use Rattle.tree_order.specs.Forest.{IsForest, IsOnlyForest, ChildrenFirst, HasOneSide};

use crate::links::Links;
use crate::picks::{children_of, dropped_of, reversed};
use crate::walk::Walk;
use service_model::{List, Network, NoMemory};
use std::alloc::Global;

/// The forest that a walk over the stages leaves: each stage but the roots hangs on the neighbour that was seen first.
#[derive(Debug, Drop)]
pub struct Forest {
    /// The parent of each stage; a root is its own.
    pub parent: List<u32>,
    /// The children of each stage, by rising stage number.
    pub children: List<List<u32>>,
    /// All stages, children before parents.
    pub order: List<u32>,
    /// The numbers of the arcs that join no parent and child, rising.
    pub dropped: List<u32>,
}

/// The forest of the walk over the stages of a network.
pub fn forest_of(alloc: Global, network: &Network) -> Result<Forest, NoMemory>
    ensures forest { IfOk result (IsForest (length network.now.stages) network.now.arcs) }
    ensures only { IfOk result (IsOnlyForest (length network.now.stages) network.now.arcs) }

    // What follows of a forest, for callers.
    ensures children_first { IfOk result ChildrenFirst }
    ensures one_side { IfOk result (HasOneSide network.now.arcs) }
    ensures all_kept { IfOk result (λ forest. forest.dropped ≡ [] → All (IsKept forest.parent) network.now.arcs) }
{
    let arcs = network.arcs().as_slice();
    let links = Links::new(alloc, network.stages().len(), arcs)?;
    let walk = Walk::over(alloc, &links)?;
    let children = children_of(alloc, walk.parent.as_slice())?;
    let dropped = dropped_of(alloc, arcs, walk.parent.as_slice())?;
    let order = reversed(alloc, walk.seen.as_slice())?;
    Ok(Forest {
        parent: walk.parent,
        children,
        order,
        dropped,
    })
}
