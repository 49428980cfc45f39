// Bridges and clusters of a network.
ghost use Rattle.std.specs.Prelude.{length, IfOk};
ghost use Rattle.cluster_split.specs.Clusters.{AreBridges, AreClusters, AreOnlyBridges, AreOnlyClusters};

use crate::heads::heads;
use crate::numbers::{arcs_between, numbers_of};
use service_model::{List, Network, NoMemory};
use std::alloc::Global;

/// The bridges and the clusters of a network.
#[derive(Debug, Drop)]
pub struct Split {
    /// The numbers of the arcs whose ends no other arcs join, rising.
    pub bridges: List<u32>,
    /// The number of each stage's cluster, from 1 on.
    pub clusters: List<u32>,
}

/// The numbers of the arcs whose ends no other arcs join, directions aside, rising.
pub fn bridges(alloc: Global, network: &Network) -> Result<List<u32>, NoMemory>
    ensures bridges { IfOk result (AreBridges network.now.arcs) }
    ensures only { IfOk result (AreOnlyBridges network.now.arcs) }
{
    let split = split_of(alloc, network)?;
    Ok(split.bridges)
}

/// The number of each stage's cluster, from 1 on by their lowest stages: arcs that are no bridges join the stages of a cluster, directions aside.
pub fn clusters(alloc: Global, network: &Network) -> Result<List<u32>, NoMemory>
    ensures clusters { IfOk result (AreClusters (length network.now.stages) network.now.arcs) }
    ensures only { IfOk result (AreOnlyClusters (length network.now.stages) network.now.arcs) }
{
    let heads = heads(alloc, network)?;
    numbers_of(alloc, heads.as_slice())
}

/// The bridges and the clusters, for callers that need both: the work of one of the two.
pub fn split_of(alloc: Global, network: &Network) -> Result<Split, NoMemory>
    ensures bridges { IfOk result (λ split. AreBridges network.now.arcs split.bridges) }
    ensures only_bridges { IfOk result (λ split. AreOnlyBridges network.now.arcs split.bridges) }
    ensures clusters { IfOk result (λ split. AreClusters (length network.now.stages) network.now.arcs split.clusters) }
    ensures only_clusters { IfOk result (λ split. AreOnlyClusters (length network.now.stages) network.now.arcs split.clusters) }
{
    let clusters = clusters(alloc, network)?;
    let bridges = arcs_between(alloc, network.arcs().as_slice(), clusters.as_slice())?;
    Ok(Split { bridges, clusters })
}
