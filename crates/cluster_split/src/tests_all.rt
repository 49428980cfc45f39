// All networks of up to five stages, against the definition: joins without the arc, sought by search.
use super::*;
use crate::tests::{arc, network};
use service_model::{List, NewFault, NoMemory, SupplyArc};
use std::alloc::Global;
use std::test::Fail;

// The pairs of five stages; those of fewer stages come first.
static PAIRS: [(u32, u32); 10] = [
    (0, 1),
    (0, 2),
    (1, 2),
    (0, 3),
    (1, 3),
    (2, 3),
    (0, 4),
    (1, 4),
    (2, 4),
    (3, 4),
];

fn has(set: u16, k: usize) -> bool {
    k < 16 && set >> k & 1 == 1
}

fn with(set: u16, k: usize) -> u16 {
    if k < 16 { set | 1 << k } else { set }
}

// The arcs of a graph, from the lower to the higher stage or the other way round.
fn arcs_of(alloc: Global, graph: u16, turned: bool) -> Result<List<SupplyArc>, NoMemory> {
    let mut arcs = List::new(alloc);
    for (k, pair) in PAIRS.iter().enumerate() {
        if has(graph, k) {
            arcs.push(if turned {
                arc(pair.1, pair.0)
            } else {
                arc(pair.0, pair.1)
            })?;
        }
    }
    Ok(arcs)
}

// The stages of a set, and those that one arc of a kind joins to them, some of them by several.
fn widened(arcs: &[SupplyArc], kind: u16, stages: u16) -> u16 {
    let mut wider = stages;
    for (k, arc) in arcs.iter().enumerate() {
        if has(kind, k) && has(wider, arc.supplier as usize) {
            wider = with(wider, arc.customer as usize);
        }
        if has(kind, k) && has(wider, arc.customer as usize) {
            wider = with(wider, arc.supplier as usize);
        }
    }
    wider
}

// The stages that arcs of a kind join to a stage.
fn joined(arcs: &[SupplyArc], kind: u16, stage: usize) -> u16 {
    let mut stages = with(0, stage);
    for _turn in 0..5 {
        stages = widened(arcs, kind, stages);
    }
    stages
}

fn is_bridge(arcs: &[SupplyArc], number: usize) -> bool {
    match arcs.get(number) {
        Some(arc) => {
            let others = u16::MAX ^ with(0, number);
            !has(
                joined(arcs, others, arc.supplier as usize),
                arc.customer as usize,
            )
        }
        None => false,
    }
}

fn without_bridges(arcs: &[SupplyArc]) -> u16 {
    let mut others = 0;
    for number in 0..arcs.len() {
        if !is_bridge(arcs, number) {
            others = with(others, number);
        }
    }
    others
}

fn lowest(arcs: &[SupplyArc], kind: u16, stage: usize) -> usize {
    joined(arcs, kind, stage).trailing_zeros() as usize
}

// How many clusters have their lowest stage at or before the stage's own lowest.
fn number(arcs: &[SupplyArc], kind: u16, stage: usize) -> u32 {
    let low = lowest(arcs, kind, stage);
    let mut count: u32 = 0;
    for other in 0..5 {
        if other <= low && lowest(arcs, kind, other) == other {
            count = count.wrapping_add(1);
        }
    }
    count
}

fn has_bridges(arcs: &[SupplyArc], bridges: &[u32]) -> bool {
    let mut numbers = 0;
    for number in bridges {
        numbers = with(numbers, *number as usize);
    }
    (0..arcs.len()).all(|k| has(numbers, k) == is_bridge(arcs, k))
}

fn has_clusters(arcs: &[SupplyArc], clusters: &[u32]) -> bool {
    let kind = without_bridges(arcs);
    clusters
        .iter()
        .enumerate()
        .all(|(stage, own)| *own == number(arcs, kind, stage))
}

fn agrees(alloc: Global, stages: u16, graph: u16, turned: bool) -> Result<bool, NewFault> {
    let network = network(alloc, stages, arcs_of(alloc, graph, turned)?)?;
    let split = split_of(alloc, &network)?;
    let arcs = network.arcs().as_slice();
    Ok(
        has_bridges(arcs, split.bridges.as_slice())
            && has_clusters(arcs, split.clusters.as_slice())
            && split.clusters.len() == stages as usize,
    )
}

fn all_agree(alloc: Global, stages: u16, graphs: u16) -> Result<bool, NewFault> {
    for graph in 0..graphs {
        if !agrees(alloc, stages, graph, false)? || !agrees(alloc, stages, graph, true)? {
            return Ok(false);
        }
    }
    Ok(true)
}

#[test]
fn each_network_of_up_to_five_stages_is_split_by_the_definition(
    rt: HostRuntime,
) -> Result<(), Fail> {
    assert!(rt; all_agree(rt.alloc(), 1, 1)?);
    assert!(rt; all_agree(rt.alloc(), 2, 2)?);
    assert!(rt; all_agree(rt.alloc(), 3, 8)?);
    assert!(rt; all_agree(rt.alloc(), 4, 64)?);
    assert!(rt; all_agree(rt.alloc(), 5, 1_024)?);
    Ok(())
}
