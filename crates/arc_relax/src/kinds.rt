// The kinds of the stages' tables, by one pass over the arcs.
ghost use Rattle.std.specs.Prelude.{◌≡◌, ◌<◌, length, slice_set, if◌then◌else◌, IfOk};
ghost use Rattle.service_model.specs.Networks.{IsNetwork};
ghost use Rattle.tree_order.specs.Forest.{IsForest};
ghost use Rattle.arc_relax.specs.Kinds.{AreKinds};

use service_model::{Kind, List, Network, NoMemory};
use std::alloc::Global;
use tree_order::Forest;

// Gives a stage's table a kind, where that is wanted.
fn set_if(kinds: &mut List<Kind>, wanted: bool, stage: u32, kind: Kind)
    requires { stage < length kinds.old }
    ensures { kinds.new ≡ (if wanted then slice_set kinds.old stage kind else kinds.old) }
{
    if wanted {
        kinds.set(stage as usize, kind);
    }
}

/// The kind of each stage's table: its parent is a customer, a supplier, or there is none.
pub fn kinds_of(alloc: Global, network: &Network, forest: &Forest) -> Result<List<Kind>, NoMemory>
    requires { IsForest (length network.now.stages) network.now.arcs forest.now }
    ensures kinds { IfOk result (AreKinds network.now.arcs forest.now.parent) }
    ensures valid { IsNetwork network.now }
{
    let arcs = network.arcs();
    let parent = forest.parent.as_slice();
    let mut kinds = List::from_vec(vec![in alloc; Kind::Root; parent.len()]?);
    'arcs: for a in 0..arcs.len() {
        let arc = *arcs.get(a);
        let to_customer = parent[arc.supplier as usize] == arc.customer;
        set_if(&mut kinds, to_customer, arc.supplier, Kind::Down);
        let to_supplier = parent[arc.customer as usize] == arc.supplier;
        set_if(&mut kinds, to_supplier, arc.customer, Kind::Up);
    }
    Ok(kinds)
}
