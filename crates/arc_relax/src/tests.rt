// Ranges of small networks, relaxed by hand, and of the largest sum of costs.
ghost use Rattle.std.specs.Prelude.{IfOk};
ghost use Rattle.table_pool.specs.Pools.{IsPool};

use crate::{Relaxed, relax};
use service_model::{INF, List, Network, NewFault, NoMemory, Plan, Stage, SupplyArc};
use std::alloc::Global;
use std::test::Fail;
use step_ledger::Steps;
use table_pool::Pool;
use tree_order::forest_of;

struct Fills;

// The lead time of a stage, the greatest outbound time and the costs.
type Row<'a> = (u16, u16, &'a [u64]);

// From a supplier to a customer, so many periods apart.
fn arc(supplier: u32, customer: u32, transit: u16) -> SupplyArc {
    SupplyArc {
        supplier,
        customer,
        transit,
    }
}

fn stage(alloc: Global, row: &Row) -> Result<Stage, NoMemory> {
    let (lead, most, cost) = row;
    Ok(Stage {
        lead: *lead,
        supply: 0,
        least: 0,
        most: *most,
        cost: List::copied(alloc, cost)?,
    })
}

fn network_of(
    alloc: Global,
    horizon: u16,
    stages: List<Stage>,
    arcs: &[SupplyArc],
) -> Result<Network, NewFault> {
    let arcs = List::copied(alloc, arcs)?;
    if stages.len() >= 1 << 32 || arcs.len() >= 1 << 32 {
        return Err(NewFault::NoMemory);
    }
    Network::new(alloc, horizon, stages, arcs)
}

fn network(
    alloc: Global,
    horizon: u16,
    rows: &[Row],
    arcs: &[SupplyArc],
) -> Result<Network, NewFault> {
    let mut stages = List::new(alloc);
    for row in rows {
        stages.push(stage(alloc, row)?)?;
    }
    network_of(alloc, horizon, stages, arcs)
}

// The whole range, relaxed over what the pool holds.
fn relaxed(
    alloc: Global,
    network: &Network,
    pool: &mut Pool,
    steps: &mut Steps<Fills>,
) -> Result<Option<Relaxed>, NoMemory>
    requires { IsPool network.now pool.old }
    ensures { IfOk result (λ _. IsPool network.now pool.new) }
{
    let stages = network.stages().len();
    let held = pool.filled().len();
    if held >= 1 << 31 || steps.count() >= 1 << 62 {
        return Ok(None);
    }
    let forest = forest_of(alloc, network)?;
    let range = network.whole(alloc)?;
    Ok(Some(relax(alloc, network, &forest, &range, pool, steps)?))
}

fn is_plan(plan: &Option<Plan>, inbound: &[u16], outbound: &[u16]) -> bool {
    match plan {
        Some(plan) => { plan.inbound.as_slice() == inbound && plan.outbound.as_slice() == outbound }
        None => false,
    }
}

// What is wanted of a range: its bound, and the inbound and the outbound times of its plan.
type Wanted<'a> = (u64, Option<(&'a [u16], &'a [u16])>);

fn is_wanted(relaxed: &Relaxed, wanted: Wanted) -> bool {
    let (bound, times) = wanted;
    let planned = match times {
        Some((inbound, outbound)) => is_plan(&relaxed.plan, inbound, outbound),
        None => relaxed.plan.is_none(),
    };
    planned && relaxed.bound == bound
}

// Whether the whole range over an empty pool has the wanted bound and plan, and one table and one step for each stage.
fn is_relaxed(
    alloc: Global,
    network: Result<Network, NewFault>,
    wanted: Wanted,
) -> Result<bool, NewFault> {
    let network = network?;
    let mut pool = Pool::new(alloc);
    let mut steps = Steps::new();
    let Some(relaxed) = relaxed(alloc, &network, &mut pool, &mut steps)? else {
        return Ok(false);
    };
    let stages = network.stages().len();
    let counted = pool.filled().len() == stages && steps.count() == stages as u64;
    Ok(counted && is_wanted(&relaxed, wanted))
}

// A supplier of lead time 3 and a customer of lead time 2 that sells at once, so many periods apart, and the customer's greatest cost.
fn two_stages(alloc: Global, transit: u16, greatest: u64) -> Result<Network, NewFault> {
    let supplier: Row = (3, 5, &[0, 2, 3, 4]);
    let customer: Row = (2, 0, &[0, 5, 7, 9, 10, greatest]);
    network(alloc, 5, &[supplier, customer], &[arc(0, 1, transit)])
}

#[test]
fn two_stages_cost_what_their_plan_costs(rt: HostRuntime) -> Result<(), Fail> {
    let alloc = rt.alloc();
    let at_once: Wanted = (11, Some((&[0, 0], &[0, 0])));
    let later: Wanted = (14, Some((&[0, 2], &[0, 0])));
    let never: Wanted = (INF, None);
    assert!(rt; is_relaxed(alloc, two_stages(alloc, 0, 12), at_once)?);
    assert!(rt; is_relaxed(alloc, two_stages(alloc, 2, 12), later)?);
    assert!(rt; is_relaxed(alloc, two_stages(alloc, 6, 12), never)?);
    Ok(())
}

// Two plans cost 11: the supplier quotes 0, or 3.
#[test]
fn either_plan_of_a_tie_will_do(rt: HostRuntime) -> Result<(), Fail> {
    let alloc = rt.alloc();
    let early: Wanted = (11, Some((&[0, 0], &[0, 0])));
    let late: Wanted = (11, Some((&[0, 3], &[3, 0])));
    let is_early = is_relaxed(alloc, two_stages(alloc, 0, 11), early)?;
    let is_late = is_relaxed(alloc, two_stages(alloc, 0, 11), late)?;
    assert!(rt; is_early || is_late);
    Ok(())
}

#[test]
fn one_stage_waits_or_cannot_be_placed(rt: HostRuntime) -> Result<(), Fail> {
    let alloc = rt.alloc();
    let falling: Row = (0, 0, &[9, 4, 1]);
    let infeasible: Row = (9, 0, &[0, 1, 2, 3]);
    let waits: Wanted = (1, Some((&[2], &[0])));
    assert!(rt; is_relaxed(alloc, network(alloc, 2, &[falling], &[]), waits)?);
    assert!(rt; is_relaxed(alloc, network(alloc, 10, &[infeasible], &[]), (INF, None))?);
    Ok(())
}

// Two ways from a stage to another; the last arc, so many periods long, is dropped.
fn diamond(alloc: Global, transit: u16) -> Result<Network, NewFault> {
    let first: Row = (2, 2, &[0, 3, 7]);
    let left: Row = (0, 2, &[0, 6, 6]);
    let right: Row = (0, 2, &[0, 1, 1]);
    let last: Row = (0, 0, &[0, 8, 8]);
    let arcs = [arc(0, 1, 0), arc(0, 2, 0), arc(1, 3, 0), arc(2, 3, transit)];
    network(alloc, 2, &[first, left, right, last], &arcs)
}

// The dropped arc is not met, but its transit keeps the last stage's floor.
#[test]
fn the_diamond_drops_an_arc_but_not_its_floor(rt: HostRuntime) -> Result<(), Fail> {
    let alloc = rt.alloc();
    let unmet: Wanted = (6, Some((&[0, 2, 2, 0], &[2, 0, 2, 0])));
    let floored: Wanted = (8, Some((&[0, 2, 2, 2], &[2, 2, 2, 0])));
    assert!(rt; is_relaxed(alloc, diamond(alloc, 0), unmet)?);
    assert!(rt; is_relaxed(alloc, diamond(alloc, 1), floored)?);
    Ok(())
}

// The roots of the whole range and how many tables and steps there are, after it was relaxed twice over one pool.
fn twice(alloc: Global) -> Result<Option<(bool, usize, u64)>, NewFault> {
    let network = diamond(alloc, 0)?;
    let mut pool = Pool::new(alloc);
    let mut steps = Steps::new();
    let Some(first) = relaxed(alloc, &network, &mut pool, &mut steps)? else {
        return Ok(None);
    };
    let Some(again) = relaxed(alloc, &network, &mut pool, &mut steps)? else {
        return Ok(None);
    };
    let same = first.roots.as_slice() == again.roots.as_slice();
    Ok(Some((same, pool.filled().len(), steps.count())))
}

#[test]
fn a_range_that_was_relaxed_fills_nothing_again(rt: HostRuntime) -> Result<(), Fail> {
    assert_eq!(rt; twice(rt.alloc())?, Some((true, 4, 4)));
    Ok(())
}

// As many stages as there may be, each at the greatest cost that files give.
fn largest(alloc: Global) -> Result<Network, NewFault> {
    let mut stages = List::new(alloc);
    for _stage in 0..1_000 {
        stages.push(stage(alloc, &(0, 0, &[1_000_000_000_000_000]))?)?;
    }
    network_of(alloc, 0, stages, &[])
}

// What the network's whole range costs at least.
fn bound_of(alloc: Global, network: Result<Network, NewFault>) -> Result<Option<u64>, NewFault> {
    let network = network?;
    let mut pool = Pool::new(alloc);
    let mut steps = Steps::new();
    Ok(relaxed(alloc, &network, &mut pool, &mut steps)?.map(|relaxed| relaxed.bound))
}

#[test]
fn the_largest_sum_is_exact(rt: HostRuntime) -> Result<(), Fail> {
    let alloc = rt.alloc();
    assert_eq!(rt;
        bound_of(alloc, largest(alloc))?,
        Some(1_000_000_000_000_000_000)
    );
    Ok(())
}
