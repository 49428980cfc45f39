use super::*;
use service_model::{List, Network, NewFault, NoMemory, Outcome, Plan, Range, Stage, SupplyArc};
use std::alloc::Global;

fn stage(alloc: Global) -> Result<Stage, NoMemory> {
    Ok(Stage {
        lead: 1,
        supply: 0,
        least: 0,
        most: 4,
        cost: List::copied(alloc, &[0, 1, 2, 3, 4, 5])?,
    })
}

// Stage 0 supplies stages 1 and 2.
fn network(alloc: Global) -> Result<Network, NewFault> {
    let mut stages = List::new(alloc);
    stages.push(stage(alloc)?)?;
    stages.push(stage(alloc)?)?;
    stages.push(stage(alloc)?)?;
    let arc = |customer| SupplyArc {
        supplier: 0,
        customer,
        transit: 0,
    };
    let arcs = List::copied(alloc, &[arc(1), arc(2)])?;
    Network::new(alloc, 4, stages, arcs)
}

fn plan(alloc: Global, inbound: &[u16], outbound: &[u16]) -> Result<Plan, NoMemory> {
    Ok(Plan {
        inbound: List::copied(alloc, inbound)?,
        outbound: List::copied(alloc, outbound)?,
    })
}

fn broken_in(alloc: Global, inbound: &[u16], outbound: &[u16]) -> Result<Option<u32>, NewFault> {
    let network = network(alloc)?;
    let plan = plan(alloc, inbound, outbound)?;
    if plan.inbound.len() == 3 && plan.outbound.len() == 3 && network.stages().len() == 3 {
        Ok(broken_arc(&network, &plan))
    } else {
        Ok(None)
    }
}

#[test]
fn the_arc_that_is_broken_most_is_taken_and_the_first_among_equals(rt: HostRuntime) {
    let alloc = rt.alloc();
    let all_met = broken_in(alloc, &[0, 2, 3], &[2, 0, 0]);
    assert!(rt; all_met == Ok(None));
    let second = broken_in(alloc, &[0, 1, 0], &[2, 0, 0]);
    assert!(rt; second == Ok(Some(1)));
    let equal = broken_in(alloc, &[0, 1, 1], &[2, 0, 0]);
    assert!(rt; equal == Ok(Some(0)));
}

// The halves of three intervals from 0 to 4, cut behind time 1 of the first stage.
fn first_halves(alloc: Global) -> Result<bool, NewFault> {
    let network = network(alloc)?;
    let range = network.whole(alloc)?;
    if range.least.len() != 3
        || range.most.len() != 3
        || *range.least.get(0) > 1
        || *range.most.get(0) < 2
    {
        return Ok(false);
    }
    let (left, right) = halves(alloc, &network, &range, 0, 1)?;
    Ok(
        left.most.as_slice() == [1, 4, 4].as_slice()
            && left.least.as_slice() == [0, 0, 0].as_slice()
            && right.least.as_slice() == [2, 0, 0].as_slice()
            && right.most.as_slice() == [4, 4, 4].as_slice(),
    )
}

#[test]
fn a_range_is_cut_behind_a_time(rt: HostRuntime) {
    assert!(rt; first_halves(rt.alloc()) == Ok(true));
}

fn ending(alloc: Global, budget: u32, least: u64) -> Result<Option<Outcome>, NewFault> {
    let network = network(alloc)?;
    Ok(ending_of(&network, budget, 3, least, &None))
}

#[test]
fn a_search_that_found_nothing_ends_at_its_budget_or_where_no_leaf_has_a_plan(rt: HostRuntime) {
    let alloc = rt.alloc();
    assert!(rt; ending(alloc, 5, 7) == Ok(None));
    assert!(rt; ending(alloc, 4, 7) == Ok(Some(Outcome::Spent)));
    assert!(rt; ending(alloc, 4, service_model::INF) == Ok(Some(Outcome::Infeasible)));
}
