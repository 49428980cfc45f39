// Certificates of small networks, worked out by hand.
ghost use Rattle.std.specs.Prelude.{◌≤◌};

use crate::search;
use service_model::cert_rules::MAX_BUDGET;
use service_model::{
    Cert, INF, List, Network, NewFault, NoMemory, Outcome, Plan, Stage, SupplyArc, Table,
    topological_order,
};
use std::alloc::Global;
use std::test::Fail;
use step_ledger::Steps;
use table_pool::Pool;
use tree_order::forest_of;

struct Fills;

// The lead time of a stage, the greatest outbound time and the costs.
pub(crate) type Row<'a> = (u16, u16, &'a [u64]);

fn stage(alloc: Global, row: &Row) -> Result<Stage, NoMemory> {
    let (lead, most, cost) = row;
    Ok(Stage {
        lead: *lead,
        supply: 0,
        least: 0,
        most: *most,
        cost: List::copied(alloc, cost)?,
    })
}

fn stages(alloc: Global, rows: &[Row]) -> Result<List<Stage>, NoMemory> {
    let mut stages = List::new(alloc);
    for row in rows {
        stages.push(stage(alloc, row)?)?;
    }
    Ok(stages)
}

pub(crate) fn arc(supplier: u32, customer: u32) -> SupplyArc {
    SupplyArc {
        supplier,
        customer,
        transit: 0,
    }
}

pub(crate) fn network(
    alloc: Global,
    horizon: u16,
    rows: &[Row],
    arcs: &[SupplyArc],
) -> Result<Network, NewFault> {
    let stages = stages(alloc, rows)?;
    let arcs = List::copied(alloc, arcs)?;
    if stages.len() >= 1 << 32 || arcs.len() >= 1 << 32 {
        return Err(NewFault::NoMemory);
    }
    Network::new(alloc, horizon, stages, arcs)
}

// A certificate, with the numbers of tables that the pool holds and of steps that were counted.
#[derive(Drop)]
pub(crate) struct Made {
    pub(crate) cert: Cert,
    held: usize,
    filled: u64,
}

pub(crate) fn searched(
    alloc: Global,
    network: Result<Network, NewFault>,
    budget: u32,
) -> Result<Made, NewFault>
    requires some { 1 ≤ budget }
    requires most { budget ≤ MAX_BUDGET }
{
    let network = network?;
    let forest = forest_of(alloc, &network)?;
    let order = topological_order(alloc, &network)?;
    let mut pool = Pool::new(alloc);
    let mut steps = Steps::<Fills>::new();
    let cert = search(
        alloc, &network, &forest, &order, budget, &mut pool, &mut steps,
    )?;
    let held = pool.filled().len();
    Ok(Made {
        cert,
        held,
        filled: steps.count(),
    })
}

fn is_plan(plan: &Option<Plan>, inbound: &[u16], outbound: &[u16]) -> bool {
    match plan {
        Some(plan) => { plan.inbound.as_slice() == inbound && plan.outbound.as_slice() == outbound }
        None => false,
    }
}

fn is_table(table: &Table, stage: u32, values: &[u64]) -> bool {
    table.stage == stage && table.values.as_slice() == values
}

// The customer's table, one value for each inbound time, comes before the supplier's, which hangs on nothing.
fn has_two_tables(cert: &Cert) -> bool {
    if cert.tables.len() != 2 {
        return false;
    }
    is_table(cert.tables.get(0), 1, &[7, 9, 10, 12, INF, INF])
        && is_table(cert.tables.get(1), 0, &[11])
}

// Whether the only node comes after so many tables and has these roots.
fn has_node(cert: &Cert, seen: u32, roots: &[u32]) -> bool {
    if cert.nodes.len() != 1 {
        return false;
    }
    let node = cert.nodes.get(0);
    node.seen == seen && node.roots.as_slice() == roots
}

fn is_optimal(cert: &Cert, bound: u64, inbound: &[u16], outbound: &[u16]) -> bool {
    let verdict = &cert.verdict;
    verdict.outcome == Outcome::Optimal
        && verdict.bound == bound
        && is_plan(&verdict.plan, inbound, outbound)
}

// A supplier of lead time 3 and a customer of lead time 2 that sells at once. Both wait for nothing: 4 + 7.
#[test]
fn two_stages_have_two_tables_and_a_node(rt: HostRuntime) -> Result<(), Fail> {
    let alloc = rt.alloc();
    let rows: [Row; 2] = [(3, 5, &[0, 2, 3, 4]), (2, 0, &[0, 5, 7, 9, 10, 12])];
    let searched = searched(alloc, network(alloc, 5, &rows, &[arc(0, 1)]), 10)?;
    let cert = &searched.cert;
    assert_eq!(rt;
        (cert.head.horizon, cert.head.stages, cert.head.budget),
        (5, 2, 10)
    );
    assert!(rt; has_two_tables(cert) && has_node(cert, 2, &[1]));
    assert!(rt; is_optimal(cert, 11, &[0, 0], &[0, 0]));
    assert_eq!(rt; (searched.held, searched.filled), (2, 2));
    Ok(())
}

// The lead time is longer than the costs have entries.
#[test]
fn a_stage_without_a_time_is_infeasible(rt: HostRuntime) -> Result<(), Fail> {
    let alloc = rt.alloc();
    let rows: [Row; 1] = [(9, 0, &[0, 1, 2, 3])];
    let searched = searched(alloc, network(alloc, 10, &rows, &[]), 10)?;
    let verdict = &searched.cert.verdict;
    assert_eq!(rt; verdict.outcome, Outcome::Infeasible);
    assert!(rt; verdict.bound == INF && verdict.plan.is_none());
    assert!(rt; has_node(&searched.cert, 1, &[0]));
    Ok(())
}

// The tables are those of stages 1, 2 and 0: stage 2 hangs on stage 0, and stage 1 on nothing.
#[test]
fn roots_stand_by_their_stages(rt: HostRuntime) -> Result<(), Fail> {
    let alloc = rt.alloc();
    let rows: [Row; 3] = [(0, 0, &[1]), (0, 0, &[2]), (0, 0, &[4])];
    let searched = searched(alloc, network(alloc, 2, &rows, &[arc(0, 2)]), 10)?;
    assert!(rt; has_node(&searched.cert, 3, &[2, 0]));
    assert!(rt; is_optimal(&searched.cert, 7, &[0, 0, 0], &[0, 0, 0]));
    Ok(())
}

// Stage 0 supplies stages 1 and 2, which supply stage 3. The arc from stage 2 to stage 3 is dropped.
fn diamond(alloc: Global) -> Result<Network, NewFault> {
    let rows: [Row; 4] = [
        (2, 2, &[0, 3, 7]),
        (0, 2, &[0, 6, 6]),
        (0, 2, &[0, 1, 1]),
        (0, 0, &[0, 8, 8]),
    ];
    network(
        alloc,
        2,
        &rows,
        &[arc(0, 1), arc(0, 2), arc(1, 3), arc(2, 3)],
    )
}

// The relaxed plan of the whole range costs 6, and quotes too late for the dropped arc. Quoting earlier costs 7. Each half of
// the range costs at least that, and stage 2 with stage 0 has three tables more in each.
#[test]
fn a_diamond_is_split_once(rt: HostRuntime) -> Result<(), Fail> {
    let alloc = rt.alloc();
    let searched = searched(alloc, diamond(alloc), 10)?;
    let cert = &searched.cert;
    assert!(rt; is_optimal(cert, 7, &[0, 2, 2, 0], &[2, 0, 0, 0]));
    assert_eq!(rt;
        (cert.nodes.len(), cert.splits.len(), cert.tables.len()),
        (3, 1, 10)
    );
    let split = *cert.splits.as_slice().first().ok_or("no range is split")?;
    assert_eq!(rt; (split.node, split.supplier, split.customer), (0, 2, 3));
    assert_eq!(rt; (searched.held, searched.filled), (10, 10));
    Ok(())
}

// No two further nodes fit, so that the search ends with the bound 6 and the plan that costs 7.
#[test]
fn a_search_that_may_not_split_is_spent(rt: HostRuntime) -> Result<(), Fail> {
    let alloc = rt.alloc();
    let searched = searched(alloc, diamond(alloc), 2)?;
    let verdict = &searched.cert.verdict;
    assert_eq!(rt; (verdict.outcome, verdict.bound), (Outcome::Spent, 6));
    assert!(rt; is_plan(&verdict.plan, &[0, 2, 2, 0], &[2, 0, 0, 0]));
    assert_eq!(rt; (searched.cert.nodes.len(), searched.filled), (1, 4));
    Ok(())
}
