ghost use Rattle.std.specs.Prelude.{◌≡◌, IfOk};

use crate::{
    Break, INF, List, MAX_ARCS, MAX_STAGES, Network, NetworkFault, NewFault, NoMemory, Plan, Stage,
    SupplyArc,
};
use std::alloc::{AllocError, Global};
use std::test::Fail;

// Lead, supply, least and most of a stage, and its cost list.
pub(crate) type Row<'a> = ([u16; 4], &'a [u64]);

const FREE: Row<'static> = ([0, 0, 0, 0], &[0]);

const DEAR: u64 = 4_000_000_000_000_000_000;

// A rule, and the place where it is the first that fails, of stages and arcs at horizon 0.
type Refusal<'a> = (u8, u32, &'a [Row<'a>], &'a [SupplyArc]);

// From a supplier to a customer, so many periods on the way.
pub(crate) fn arc(supplier: u32, customer: u32, transit: u16) -> SupplyArc {
    SupplyArc {
        supplier,
        customer,
        transit,
    }
}

fn stage(alloc: Global, row: Row) -> Result<Stage, NoMemory> {
    let ([lead, supply, least, most], cost) = row;
    Ok(Stage {
        lead,
        supply,
        least,
        most,
        cost: List::copied(alloc, cost)?,
    })
}

pub(crate) fn network(
    alloc: Global,
    horizon: u16,
    rows: &[Row],
    arcs: &[SupplyArc],
) -> Result<Network, NewFault> {
    let mut stages = List::new(alloc);
    for row in rows {
        stages.push(stage(alloc, *row)?)?;
    }
    let arcs = List::copied(alloc, arcs)?;
    if stages.len() >= 1 << 32 || arcs.len() >= 1 << 32 {
        return Err(NewFault::NoMemory);
    }
    Network::new(alloc, horizon, stages, arcs)
}

fn is_refused(alloc: Global, horizon: u16, refusal: Refusal) -> bool {
    let (rule, place, rows, arcs) = refusal;
    let fault = NetworkFault { rule, place };
    network(alloc, horizon, rows, arcs).err() == Some(NewFault::Rule(fault))
}

// The first of these that is not refused so.
fn first_unlike(alloc: Global, refusals: &[Refusal]) -> Option<usize> {
    refusals
        .iter()
        .position(|refusal| !is_refused(alloc, 0, *refusal))
}

#[test]
fn the_first_rule_on_stages_that_fails_is_named(rt: HostRuntime) {
    let late: Row = ([1_001, 0, 0, 0], &[0]);
    let empty: Row = ([0, 0, 0, 0], &[]);
    let above: Row = ([0, 0, 0, 0], &[INF + 1]);
    let one: Row = ([0, 0, 0, 0], &[1]);
    let unlike = first_unlike(
        rt.alloc(),
        &[
            (2, 0, &[], &[]),
            (3, 1, &[FREE, late], &[]),
            (3, 1, &[FREE, ([0, 1, 0, 0], &[0])], &[]),
            (3, 1, &[FREE, ([0, 0, 0, 1], &[0])], &[]),
            (3, 1, &[FREE, ([0, 0, 1, 0], &[0])], &[]),
            (3, 1, &[empty, late], &[]),
            (4, 1, &[FREE, empty], &[]),
            (4, 1, &[above, empty], &[]),
            (5, 1, &[FREE, above], &[]),
            (5, 1, &[([0, 0, 0, 0], &[DEAR]), one, above], &[]),
        ],
    );
    assert_eq!(rt; unlike, None);
}

#[test]
fn the_first_rule_on_arcs_that_fails_is_named(rt: HostRuntime) {
    let three = [FREE, FREE, FREE];
    let unlike = first_unlike(
        rt.alloc(),
        &[
            (7, 1, &three, &[arc(0, 1, 0), arc(3, 1, 0)]),
            (7, 0, &three, &[arc(0, 3, 0), arc(0, 3, 0)]),
            (7, 1, &three, &[arc(0, 1, 0), arc(2, 2, 0)]),
            (8, 1, &three, &[arc(1, 2, 0), arc(1, 2, 3)]),
            (9, 1, &three, &[arc(2, 1, 0), arc(1, 2, 1_001)]),
            (10, 1, &three, &[arc(0, 1, 1_000), arc(1, 2, 1_001)]),
        ],
    );
    assert_eq!(rt; unlike, None);
}

// Whether one stage, arc or entry too many is refused.
fn are_refused(alloc: Global) -> Result<[bool; 3], AllocError> {
    let rows = vec![in alloc; FREE; MAX_STAGES + 1]?;
    let arcs = vec![in alloc; arc(0, 1, 0); MAX_ARCS + 1]?;
    let entries = vec![in alloc; 0; 1_002]?;
    let long: Row = ([0, 0, 0, 0], entries.as_slice());
    Ok([
        is_refused(alloc, 0, (2, 1_001, rows.as_slice(), &[])),
        is_refused(alloc, 0, (4, 0, &[long], &[])),
        is_refused(alloc, 0, (6, 5_001, &[FREE, FREE], arcs.as_slice())),
    ])
}

#[test]
fn what_is_past_a_limit_is_refused(rt: HostRuntime) -> Result<(), Fail> {
    assert!(rt; is_refused(rt.alloc(), 401, (1, 0, &[], &[])));
    assert_eq!(rt; are_refused(rt.alloc())?, [true; 3]);
    Ok(())
}

// Each number at its limit, but for the counts of stages and arcs.
fn greatest(alloc: Global) -> Result<Network, NewFault> {
    let entries = vec![in alloc; INF; 1_401].map_err(NoMemory::from)?;
    let rows: [Row; 2] = [
        ([1_000, 400, 400, 400], entries.as_slice()),
        ([0, 0, 0, 0], &[DEAR]),
    ];
    network(alloc, 400, &rows, &[arc(0, 1, 1_000)])
}

// As many stages and arcs as there may be, each arc from a stage to one of the six after it.
fn fullest(alloc: Global) -> Result<Network, NewFault> {
    let rows = vec![in alloc; FREE; MAX_STAGES].map_err(NoMemory::from)?;
    let mut arcs = List::new(alloc);
    for supplier in 0..MAX_STAGES as u32 {
        for step in 1..7 {
            if supplier + step < MAX_STAGES as u32 && arcs.len() < MAX_ARCS {
                arcs.push(arc(supplier, supplier + step, 0))?;
            }
        }
    }
    network(alloc, 0, rows.as_slice(), arcs.as_slice())
}

// The horizon, the counts, and the last stage's costs at 0 and 1.
fn seen(network: &Network) -> (u16, usize, usize, u64, u64) {
    let stages = network.stages().len();
    let last = stages as u32 - 1;
    (
        network.horizon(),
        stages,
        network.arcs().len(),
        network.cost_at(last, 0),
        network.cost_at(last, 1),
    )
}

#[test]
fn a_network_at_its_limits_is_made(rt: HostRuntime) -> Result<(), Fail> {
    assert_eq!(rt; seen(&greatest(rt.alloc())?), (400, 2, 1, DEAR, INF));
    assert_eq!(rt; seen(&fullest(rt.alloc())?), (0, 1_000, 5_000, 0, INF));
    Ok(())
}

// What comes of a plan: its cost, or the first rule that it breaks and where; none where it lacks a time.
fn judged(network: &Network, plan: &Plan) -> Option<Result<u64, (u8, u32)>> {
    let count = network.stages().len();
    if plan.inbound.len() != count || plan.outbound.len() != count {
        return None;
    }
    Some(match network.first_break(plan) {
        Some(Break { rule, place }) => Err((rule, place)),
        None => Ok(network.cost(plan)),
    })
}

pub(crate) fn plan(alloc: Global, inbound: &[u16], outbound: &[u16]) -> Result<Plan, NoMemory>
    ensures { IfOk result (λ p. (p.inbound ≡ inbound.now) × (p.outbound ≡ outbound.now)) }
{
    Ok(Plan {
        inbound: List::copied(alloc, inbound)?,
        outbound: List::copied(alloc, outbound)?,
    })
}

// The times of each stage, inbound first, and what comes of them.
type Times<'a> = (&'a [u16], &'a [u16], Result<u64, (u8, u32)>);

fn comes_of(alloc: Global, network: &Network, times: Times) -> Result<bool, NoMemory> {
    let (inbound, outbound, answer) = times;
    let plan = plan(alloc, inbound, outbound)?;
    Ok(judged(network, &plan) == Some(answer))
}

// The first plan of which something else comes.
fn first_other(alloc: Global, network: &Network, plans: &[Times]) -> Option<usize> {
    plans
        .iter()
        .position(|times| comes_of(alloc, network, *times) != Ok(true))
}

#[test]
fn a_plan_for_the_diamond_has_a_cost_or_a_first_break(rt: HostRuntime) -> Result<(), Fail> {
    let rows: [Row; 4] = [
        ([2, 0, 0, 2], &[0, 3, 7]),
        ([0, 0, 0, 2], &[0, 6, 6]),
        ([0, 0, 0, 2], &[0, 1, 1]),
        ([0, 0, 0, 0], &[0, 8, 8]),
    ];
    let arcs = [arc(0, 1, 0), arc(0, 2, 0), arc(1, 3, 0), arc(2, 3, 0)];
    let diamond = network(rt.alloc(), 2, &rows, &arcs)?;
    let other = first_other(
        rt.alloc(),
        &diamond,
        &[
            (&[0, 2, 2, 0], &[2, 0, 0, 0], Ok(7)),
            (&[3, 2, 2, 0], &[2, 0, 0, 0], Err((2, 0))),
            (&[0, 2, 2, 0], &[2, 0, 0, 1], Err((4, 3))),
            (&[0, 0, 2, 0], &[2, 1, 0, 0], Err((5, 1))),
            (&[1, 2, 2, 0], &[0, 0, 0, 0], Err((6, 0))),
            (&[0, 2, 2, 0], &[2, 0, 2, 0], Err((7, 3))),
            (&[0, 1, 2, 0], &[2, 0, 0, 1], Err((4, 3))),
        ],
    );
    assert_eq!(rt; other, None);
    Ok(())
}

#[test]
fn a_transit_and_a_time_that_is_not_allowed_break_a_plan(rt: HostRuntime) -> Result<(), Fail> {
    let rows: [Row; 2] = [([0, 1, 1, 2], &[5, INF]), ([0, 0, 0, 0], &[0, 0, 2])];
    let pair = network(rt.alloc(), 2, &rows, &[arc(0, 1, 1)])?;
    let other = first_other(
        rt.alloc(),
        &pair,
        &[
            (&[1, 2], &[1, 0], Ok(7)),
            (&[0, 2], &[1, 0], Err((1, 0))),
            (&[1, 2], &[0, 0], Err((3, 0))),
            (&[2, 2], &[1, 0], Err((6, 0))),
            (&[1, 1], &[1, 0], Err((7, 0))),
        ],
    );
    assert_eq!(rt; other, None);
    Ok(())
}

#[test]
fn the_transit_of_an_arc_is_found_by_its_ends(rt: HostRuntime) -> Result<(), Fail> {
    let arcs = [arc(0, 1, 4), arc(2, 1, 3), arc(0, 2, 0)];
    let network = network(rt.alloc(), 0, &[FREE, FREE, FREE], &arcs)?;
    assert_eq!(rt; network.transit_between(0, 1), 4);
    assert_eq!(rt; network.transit_between(2, 1), 3);
    assert_eq!(rt; network.transit_between(1, 2), 0);
    Ok(())
}

// A supplier that takes two periods, and a customer that sells at once.
fn line(alloc: Global) -> Result<Network, NewFault> {
    let mut stages = List::new(alloc);
    stages.push(stage(alloc, ([2, 0, 0, 2], &[0, 3, 7]))?)?;
    stages.push(stage(alloc, ([0, 0, 0, 0], &[0, 8, 9]))?)?;
    let arcs = vec![in alloc; arc(0, 1, 0)].map_err(NoMemory::from)?;
    Network::new(alloc, 2, stages, List::from_vec(arcs))
}

#[test]
fn a_customer_has_to_wait_for_what_its_supplier_quotes(rt: HostRuntime) -> Result<(), Fail> {
    let network = line(rt.alloc())?;
    let mut plan = plan(rt.alloc(), &[0, 1], &[1, 0])?;
    assert_eq!(rt; judged(&network, &plan), Some(Ok(11)));
    plan.outbound.set(0, 2);
    assert_eq!(rt; judged(&network, &plan), Some(Err((7, 0))));
    plan.inbound.set(1, 2);
    assert_eq!(rt; judged(&network, &plan), Some(Ok(9)));
    Ok(())
}
