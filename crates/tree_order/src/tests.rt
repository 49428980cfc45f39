// The forests of small networks, by hand, and of one as large as a network may be.
use super::*;
use service_model::{List, MAX_ARCS, MAX_STAGES, Network, NewFault, NoMemory, Stage, SupplyArc};
use std::alloc::Global;
use std::test::Fail;

fn stage(alloc: Global) -> Result<Stage, NoMemory> {
    Ok(Stage {
        lead: 0,
        supply: 0,
        least: 0,
        most: 0,
        cost: List::copied(alloc, &[0])?,
    })
}

// From a supplier to a customer.
fn arc(supplier: u32, customer: u32) -> SupplyArc {
    SupplyArc {
        supplier,
        customer,
        transit: 0,
    }
}

fn network(alloc: Global, count: u16, arcs: List<SupplyArc>) -> Result<Network, NewFault> {
    let mut stages = List::new(alloc);
    for _stage in 0..count {
        stages.push(stage(alloc)?)?;
    }
    if stages.len() >= 1 << 32 || arcs.len() >= 1 << 32 {
        return Err(NewFault::NoMemory);
    }
    Network::new(alloc, 0, stages, arcs)
}

fn forest(alloc: Global, count: u16, arcs: &[SupplyArc]) -> Result<Forest, NewFault> {
    let network = network(alloc, count, List::copied(alloc, arcs)?)?;
    Ok(forest_of(alloc, &network)?)
}

// Whether these are the children of the stages.
fn has_children(forest: &Forest, children: &[&[u32]]) -> bool {
    let lists = forest.children.as_slice();
    lists.len() == children.len()
        && lists
            .iter()
            .zip(children)
            .all(|(list, own)| list.as_slice() == *own)
}

#[test]
fn the_diamond_drops_its_last_arc(rt: HostRuntime) -> Result<(), Fail> {
    let arcs = [arc(0, 1), arc(0, 2), arc(1, 3), arc(2, 3)];
    let forest = forest(rt.alloc(), 4, &arcs)?;
    assert_eq!(rt; forest.parent.as_slice(), [0, 0, 0, 1].as_slice());
    assert!(rt; has_children(&forest, &[&[1, 2], &[3], &[], &[]]));
    assert_eq!(rt; forest.order.as_slice(), [3, 2, 1, 0].as_slice());
    assert_eq!(rt; forest.dropped.as_slice(), [3].as_slice());
    Ok(())
}

#[test]
fn arcs_are_walked_both_ways_and_in_their_order(rt: HostRuntime) -> Result<(), Fail> {
    let arcs = [arc(5, 2), arc(4, 1), arc(2, 1), arc(2, 3), arc(3, 1)];
    let forest = forest(rt.alloc(), 6, &arcs)?;
    assert_eq!(rt; forest.parent.as_slice(), [0, 1, 1, 1, 1, 2].as_slice());
    assert!(rt; has_children(&forest, &[&[], &[2, 3, 4], &[5], &[], &[], &[]]));
    assert_eq!(rt; forest.order.as_slice(), [5, 3, 2, 4, 1, 0].as_slice());
    assert_eq!(rt; forest.dropped.as_slice(), [3].as_slice());
    Ok(())
}

// As many stages and arcs as there may be, each arc from a stage to one of the six after it.
fn fullest(alloc: Global) -> Result<Network, NewFault> {
    let mut arcs = List::new(alloc);
    for supplier in 0..MAX_STAGES as u32 {
        for step in 1..7 {
            if supplier + step < MAX_STAGES as u32 && arcs.len() < MAX_ARCS {
                arcs.push(arc(supplier, supplier + step))?;
            }
        }
    }
    network(alloc, MAX_STAGES as u16, arcs)
}

#[test]
fn the_largest_network_has_a_forest(rt: HostRuntime) -> Result<(), Fail> {
    let network = fullest(rt.alloc())?;
    let forest = forest_of(rt.alloc(), &network)?;
    assert_eq!(rt; network.arcs().len(), 5_000);
    assert_eq!(rt; forest.order.len(), 1_000);
    // 833 stages lead to six each and one to two, so the stages up to 838 are one tree.
    assert_eq!(rt; forest.dropped.len(), 5_000 - 838);
    Ok(())
}
