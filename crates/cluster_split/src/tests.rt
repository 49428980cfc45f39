// Small networks by hand and by the definition itself, and one as large as a network may be.
use super::*;
use service_model::{List, MAX_ARCS, MAX_STAGES, Network, NewFault, NoMemory, Stage, SupplyArc};
use std::alloc::Global;
use std::test::Fail;

fn stage(alloc: Global) -> Result<Stage, NoMemory> {
    Ok(Stage {
        lead: 0,
        supply: 0,
        least: 0,
        most: 0,
        cost: List::copied(alloc, &[0])?,
    })
}

// From a supplier to a customer.
pub fn arc(supplier: u32, customer: u32) -> SupplyArc {
    SupplyArc {
        supplier,
        customer,
        transit: 0,
    }
}

pub fn network(alloc: Global, count: u16, arcs: List<SupplyArc>) -> Result<Network, NewFault> {
    let mut stages = List::new(alloc);
    for _stage in 0..count {
        stages.push(stage(alloc)?)?;
    }
    if stages.len() >= 1 << 32 || arcs.len() >= 1 << 32 {
        return Err(NewFault::NoMemory);
    }
    Network::new(alloc, 0, stages, arcs)
}

#[test]
fn the_diamond_is_one_cluster_and_its_tail_another(rt: HostRuntime) -> Result<(), Fail> {
    let arcs = [arc(0, 1), arc(0, 2), arc(1, 3), arc(2, 3), arc(3, 4)];
    let network = network(rt.alloc(), 5, List::copied(rt.alloc(), &arcs)?)?;
    assert_eq!(rt; bridges(rt.alloc(), &network)?.as_slice(), [4].as_slice());
    assert_eq!(rt;
        clusters(rt.alloc(), &network)?.as_slice(),
        [1, 1, 1, 1, 2].as_slice()
    );
    Ok(())
}

#[test]
fn without_arcs_each_stage_is_a_cluster(rt: HostRuntime) -> Result<(), Fail> {
    let network = network(rt.alloc(), 3, List::new(rt.alloc()))?;
    let split = split_of(rt.alloc(), &network)?;
    assert!(rt; split.bridges.as_slice().is_empty());
    assert_eq!(rt; split.clusters.as_slice(), [1, 2, 3].as_slice());
    Ok(())
}

// As many stages and arcs as there may be, each arc from a stage to one of the six after it.
fn fullest(alloc: Global) -> Result<Network, NewFault> {
    let mut arcs = List::new(alloc);
    for supplier in 0..MAX_STAGES as u32 {
        for step in 1..7 {
            if supplier + step < MAX_STAGES as u32 && arcs.len() < MAX_ARCS {
                arcs.push(arc(supplier, supplier + step))?;
            }
        }
    }
    network(alloc, MAX_STAGES as u16, arcs)
}

#[test]
fn the_largest_network_is_split(rt: HostRuntime) -> Result<(), Fail> {
    let network = fullest(rt.alloc())?;
    let split = split_of(rt.alloc(), &network)?;
    let clusters = split.clusters.as_slice();
    // 832 stages lead to six each; stage 832 alone leads to 838, by its last arc, and no arc to a later stage.
    assert_eq!(rt; split.bridges.as_slice(), [4_997].as_slice());
    assert_eq!(rt; clusters.len(), 1_000);
    assert_eq!(rt;
        [clusters[0], clusters[837], clusters[838], clusters[999]],
        [1, 1, 2, 163]
    );
    Ok(())
}
