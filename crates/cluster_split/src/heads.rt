// Heads: the stages of a cluster are those that lead to one top, once all dropped arcs are merged along the forest.
ghost use Rattle.std.specs.Prelude.{◌<◌, ◌^◌, length, All, IfOk};
ghost use Rattle.cluster_split.specs.Tops.{Falls, AreTops};
ghost use Rattle.cluster_split.specs.Places.{AreMerged, AreHeads, TellClusters};
ghost use Rattle.cluster_split.specs.Layouts.{CanMerge};

use crate::places::Layout;
use crate::tops::{merge, own_tops, top_of};
use service_model::{List, Network, NoMemory, SupplyArc};
use std::alloc::Global;
use tree_order::forest_of;

// Merges what stands between the ends of each dropped arc.
fn merge_all(tops: &mut List<u32>, layout: &Layout, arcs: &[SupplyArc], dropped: &[u32])
    requires tops { AreTops layout.now.up tops.old }
    requires ready { CanMerge layout.now.up layout.now.place arcs.now dropped.now }
    ensures { AreMerged layout.now.up layout.now.place arcs.now dropped.now (length dropped.now) tops.old tops.new }
{
    let place = layout.place.as_slice();
    let up = layout.up.as_slice();
    'dropped: for k in 0..dropped.len() {
        let arc = arcs[dropped[k] as usize];
        merge(
            tops,
            up,
            place[arc.supplier as usize],
            place[arc.customer as usize],
        );
    }
}

// The top of each stage.
fn heads_of(alloc: Global, tops: &mut List<u32>, place: &[u32]) -> Result<List<u32>, NoMemory>
    requires falls { Falls tops.old }
    requires places { All (λ k. k < length tops.old) place.now }
    ensures { IfOk result (AreHeads tops.old place.now) }
{
    let mut heads = List::new(alloc);
    'stages: for x in 0..place.len() {
        heads.push(top_of(tops, place[x]))?;
    }
    Ok(heads)
}

/// A number for each stage, the same for two stages exactly where they are of one cluster.
pub fn heads(alloc: Global, network: &Network) -> Result<List<u32>, NoMemory>
    ensures tell { IfOk result (TellClusters (length network.now.stages) network.now.arcs) }
    ensures few { IfOk result (λ heads. length heads < 2 ^ 32) }
{
    let arcs = network.arcs().as_slice();
    let forest = forest_of(alloc, network)?;
    let layout = Layout::new(alloc, &forest)?;
    let mut tops = own_tops(alloc, layout.up.len())?;
    merge_all(&mut tops, &layout, arcs, forest.dropped.as_slice());
    heads_of(alloc, &mut tops, layout.place.as_slice())
}
