// Repairs of two stages and of a diamond, worked out by hand.
ghost use Rattle.std.specs.Prelude.{◌↔◌, IfOk, IfSome, IsTrue};
ghost use Rattle.service_model.specs.Plans.{HasTimes, Feasible};
ghost use Rattle.service_model.specs.Repairs.{IsRepairable};

use crate::{best_repair, keep_better};
use service_model::{List, Network, NewFault, NoMemory, Plan, Stage, SupplyArc, topological_order};
use std::alloc::Global;
use std::test::Fail;

// The lead time of a stage, the greatest outbound time and the costs.
type Row<'a> = (u16, u16, &'a [u64]);

// The inbound and the outbound times of a plan.
type Times<'a> = (&'a [u16], &'a [u16]);

// From a supplier to a customer, so many periods apart.
fn arc(supplier: u32, customer: u32, transit: u16) -> SupplyArc {
    SupplyArc {
        supplier,
        customer,
        transit,
    }
}

fn stage(alloc: Global, row: &Row) -> Result<Stage, NoMemory> {
    let (lead, most, cost) = row;
    Ok(Stage {
        lead: *lead,
        supply: 0,
        least: 0,
        most: *most,
        cost: List::copied(alloc, cost)?,
    })
}

fn network_of(
    alloc: Global,
    horizon: u16,
    stages: List<Stage>,
    arcs: &[SupplyArc],
) -> Result<Network, NewFault> {
    let arcs = List::copied(alloc, arcs)?;
    if stages.len() >= 1 << 32 || arcs.len() >= 1 << 32 {
        return Err(NewFault::NoMemory);
    }
    Network::new(alloc, horizon, stages, arcs)
}

fn network(
    alloc: Global,
    horizon: u16,
    rows: &[Row],
    arcs: &[SupplyArc],
) -> Result<Network, NewFault> {
    let mut stages = List::new(alloc);
    for row in rows {
        stages.push(stage(alloc, row)?)?;
    }
    network_of(alloc, horizon, stages, arcs)
}

// A supplier of lead time 2 and a customer of lead time 1 that sells at once, with their costs.
fn pair(alloc: Global, supplier: &[u64], customer: &[u64]) -> Result<Network, NewFault> {
    network(
        alloc,
        2,
        &[(2, 2, supplier), (1, 0, customer)],
        &[arc(0, 1, 0)],
    )
}

// Stages that hold no stock, but for the last, which sells at once.
fn diamond(alloc: Global) -> Result<Network, NewFault> {
    let rows: [Row; 4] = [
        (2, 2, &[0]),
        (1, 3, &[0]),
        (1, 3, &[0]),
        (1, 0, &[0, 1, 2, 3, 4, 5]),
    ];
    let arcs = [arc(0, 1, 0), arc(0, 2, 0), arc(1, 3, 1), arc(2, 3, 0)];
    network(alloc, 4, &rows, &arcs)
}

fn plan_of(alloc: Global, times: Times) -> Result<Plan, NoMemory> {
    let (inbound, outbound) = times;
    Ok(Plan {
        inbound: List::copied(alloc, inbound)?,
        outbound: List::copied(alloc, outbound)?,
    })
}

fn is_plan(plan: &Option<Plan>, times: Option<Times>) -> bool {
    match (plan, times) {
        (Some(plan), Some((inbound, outbound))) => {
            plan.inbound.as_slice() == inbound && plan.outbound.as_slice() == outbound
        }
        (None, None) => true,
        _ => false,
    }
}

fn has_times(network: &Network, plan: &Plan) -> bool
    ensures { IsTrue result ↔ HasTimes network.now plan.now }
{
    let stages = network.stages().len();
    plan.inbound.len() == stages && plan.outbound.len() == stages
}

// Whether the plan has two times for each stage, none above its limit.
fn is_repairable(network: &Network, plan: &Plan) -> bool
    ensures { IsTrue result ↔ IsRepairable network.now plan.now }
{
    if !has_times(network, plan) {
        return false;
    }
    let stages = network.stages();
    'stages: for j in 0..stages.len() {
        if *plan.inbound.get(j) > network.horizon() || *plan.outbound.get(j) > stages.get(j).most {
            return false;
        }
    }
    true
}

// What the repairs of a plan of these times find, none where it is not one that is repaired.
fn found(alloc: Global, network: &Network, times: Times) -> Result<Option<Plan>, NoMemory>
    ensures { IfOk result (λ plan. IfSome plan (Feasible network.now)) }
{
    let order = topological_order(alloc, network)?;
    let relaxed = plan_of(alloc, times)?;
    if is_repairable(network, &relaxed) {
        best_repair(alloc, network, &order, &Some(relaxed))
    } else {
        Ok(None)
    }
}

fn finds(
    alloc: Global,
    network: Result<Network, NewFault>,
    relaxed: Times,
    wanted: Option<Times>,
) -> Result<bool, NewFault> {
    let plan = found(alloc, &network?, relaxed)?;
    Ok(is_plan(&plan, wanted))
}

#[test]
fn the_first_repair_of_least_cost_is_found(rt: HostRuntime) -> Result<(), Fail> {
    let alloc = rt.alloc();
    // All repairs cost 7.
    let dear = pair(alloc, &[0, 1, 2], &[0, 5, 6, 7]);
    assert!(rt; finds(alloc, dear, (&[0, 0], &[2, 0]), Some((&[0, 2], &[2, 0])))?);
    // The customer cannot wait.
    let hasty = pair(alloc, &[0, 1, 2], &[0, 5]);
    assert!(rt; finds(alloc, hasty, (&[0, 0], &[2, 0]), Some((&[0, 0], &[0, 0])))?);
    // Nor can the supplier hold stock.
    assert!(rt; finds(alloc, pair(alloc, &[0], &[0, 5]), (&[0, 0], &[2, 0]), None)?);
    // A time is above its limit.
    assert!(rt; finds(alloc, pair(alloc, &[0], &[0, 5]), (&[0, 0], &[3, 0]), None)?);
    Ok(())
}

#[test]
fn a_shift_is_found_where_no_stage_may_hold_stock(rt: HostRuntime) -> Result<(), Fail> {
    let alloc = rt.alloc();
    let relaxed: Times = (&[0, 0, 2, 3], &[2, 1, 3, 0]);
    let shifted: Times = (&[0, 2, 2, 4], &[2, 3, 3, 0]);
    assert!(rt; finds(alloc, diamond(alloc), relaxed, Some(shifted))?);
    Ok(())
}

#[test]
fn a_later_plan_is_kept_where_it_costs_less(rt: HostRuntime) -> Result<(), Fail> {
    let alloc = rt.alloc();
    let network = pair(alloc, &[0, 1, 2], &[0, 5, 6, 9])?;
    let cheap: Times = (&[0, 0], &[0, 0]);
    // The plans cost 9, 7 and 7.
    let mut best = found(alloc, &network, (&[0, 2], &[2, 0]))?;
    keep_better(&network, &mut best, found(alloc, &network, cheap)?);
    assert!(rt; is_plan(&best, Some(cheap)));
    keep_better(
        &network,
        &mut best,
        found(alloc, &network, (&[0, 1], &[1, 0]))?,
    );
    assert!(rt; is_plan(&best, Some(cheap)));
    Ok(())
}
