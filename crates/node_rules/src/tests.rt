// Nodes over two stages and an arc from the first to the second.
ghost use Rattle.std.specs.Prelude.{◌≡◌, ℕ, ◌<◌, All, IsTrue, length};
ghost use Rattle.service_model.specs.Tables.{table_at, IsChild, IsShaped, IsSized, Supplies};
ghost use Rattle.service_model.specs.LocalSums.{Sound};
ghost use Rattle.service_model.specs.CertNumbers.{TableInRange};

use crate::roots::are_roots;
use crate::tables::table_in;
use crate::{node_bound, node_fault};
use service_model::cert_rules::{BUDGET, FITS, MAX_NUMBER, RELAXED, ROOT, STAGE_TWICE};
use service_model::{
    INF, Kind, List, MAX_TIME, Network, NewFault, NoMemory, Node, Plan, Stage, SupplyArc, Table,
};
use std::alloc::Global;
use std::test::Fail;

fn stage(alloc: Global, most: u16, cost: &[u64]) -> Result<Stage, NoMemory> {
    Ok(Stage {
        lead: 1,
        supply: 0,
        least: 0,
        most,
        cost: List::copied(alloc, cost)?,
    })
}

fn network(alloc: Global) -> Result<Network, NewFault> {
    let mut stages = List::new(alloc);
    stages.push(stage(alloc, 2, &[0, 3, 5])?)?;
    stages.push(stage(alloc, 0, &[0, 4, 6, 7])?)?;
    let arc = SupplyArc {
        supplier: 0,
        customer: 1,
        transit: 0,
    };
    let arcs = List::copied(alloc, &[arc])?;
    if stages.len() > 2 || arcs.len() > 1 {
        return Err(NoMemory.into());
    }
    Network::new(alloc, 2, stages, arcs)
}

// The table of the supplier, with a value for each outbound time from 0 on, and that of the customer over it.
fn tables(alloc: Global, below: &[u64], value: u64) -> Result<Vec<Table>, NoMemory> {
    let mut tables = Vec::new(alloc);
    tables.push(Table {
        stage: 0,
        kind: Kind::Down,
        least: 0,
        most: below.len().saturating_sub(1).min(2) as u16,
        floor: 0,
        children: List::new(alloc),
        values: List::copied(alloc, below)?,
    })?;
    tables.push(Table {
        stage: 1,
        kind: Kind::Root,
        least: 0,
        most: 0,
        floor: 0,
        children: List::copied(alloc, &[0])?,
        values: List::copied(alloc, &[value])?,
    })?;
    Ok(tables)
}

fn node(alloc: Global, roots: &[u32], outbound: &[u16]) -> Result<Node, NoMemory> {
    Ok(Node {
        seen: 2,
        roots: List::copied(alloc, roots)?,
        relaxed: Some(Plan {
            inbound: List::copied(alloc, &[0, 0])?,
            outbound: List::copied(alloc, outbound)?,
        }),
    })
}

fn is_sized(network: &Network, table: &Table) -> bool
    ensures { IsTrue result → IsSized network.now table.now }
{
    let horizon = network.horizon();
    if table.least > table.most || table.most > horizon || table.floor > horizon {
        return false;
    }
    let width = match table.kind {
        Kind::Down => table.most as usize + 1 - table.least as usize,
        Kind::Up => horizon as usize + 1 - table.floor as usize,
        Kind::Root => 1,
    };
    (table.stage as usize) < network.stages().len() && table.values.len() == width
}

fn supplies(network: &Network, supplier: u32, customer: u32) -> bool
    ensures { IsTrue result → Supplies network.now.arcs supplier customer }
{
    let arcs = network.arcs().as_slice();
    arcs.iter()
        .any(|arc| arc.supplier == supplier && arc.customer == customer)
}

fn may_hang(network: &Network, child: &Table, stage: u32) -> bool
    ensures { IsTrue result → IsChild child.now.kind network.now.arcs child.now.stage stage }
{
    match child.kind {
        Kind::Down => supplies(network, child.stage, stage),
        Kind::Up => supplies(network, stage, child.stage),
        Kind::Root => false,
    }
}

fn are_children(
    network: &Network,
    tables: &[Table],
    number: usize,
    children: &[u32],
    stage: u32,
) -> bool
    requires { number < length tables.now }
    ensures { IsTrue result → All (λ c. (c < number) × IsChild (table_at tables.now c).kind network.now.arcs (table_at tables.now c).stage stage) children.now }
{
    'children: for child in children {
        let at = *child as usize;
        if at >= number || !may_hang(network, table_in(tables, at), stage) {
            return false;
        }
    }
    true
}

fn is_shaped(network: &Network, tables: &[Table], number: usize) -> bool
    requires { number < length tables.now }
    ensures { IsTrue result → IsShaped network.now tables.now number (table_at tables.now number) }
{
    let table = table_in(tables, number);
    let children = table.children.as_slice();
    is_sized(network, table) && are_children(network, tables, number, children, table.stage)
}

fn are_shaped(network: &Network, tables: &[Table]) -> bool
    ensures { IsTrue result → ((k : ℕ) → k < length tables.now → IsShaped network.now tables.now k (table_at tables.now k)) }
{
    'tables: for number in 0..tables.len() {
        if !is_shaped(network, tables, number) {
            return false;
        }
    }
    true
}

fn are_free(tables: &[Table]) -> bool
    ensures { IsTrue result → ((k : ℕ) → k < length tables.now → All (λ x. x ≡ 0) (table_at tables.now k).values) }
{
    'tables: for number in 0..tables.len() {
        if !is_free(table_in(tables, number)) {
            return false;
        }
    }
    true
}

fn is_free(table: &Table) -> bool
    ensures { IsTrue result → All (λ x. x ≡ 0) table.now.values }
{
    table.values.as_slice().iter().all(|value| *value == 0)
}

// Values of 0 are at most any sum.
fn are_sound(network: &Network, tables: &[Table]) -> bool
    ensures { IsTrue result → Sound network.now tables.now }
{
    are_shaped(network, tables) && are_free(tables)
}

fn is_in_range(table: &Table) -> bool
    ensures { IsTrue result → TableInRange table.now }
{
    table.stage <= MAX_NUMBER
        && table.least <= MAX_TIME
        && table.most <= MAX_TIME
        && table.floor <= MAX_TIME
        && table
            .children
            .as_slice()
            .iter()
            .all(|child| *child <= MAX_NUMBER)
        && table.values.as_slice().iter().all(|value| *value <= INF)
}

fn are_in_range(tables: &[Table]) -> bool
    ensures { IsTrue result → All TableInRange tables.now }
{
    'tables: for table in tables {
        if !is_in_range(table) {
            return false;
        }
    }
    true
}

// The greatest outbound time of the first table, how many nodes came, the roots, the outbound times of the relaxed
// plan, and the first rule that fails.
type Case = (usize, usize, &'static [u32], &'static [u16], Option<u8>);

// The rules behind the first that fails fail too, where they can.
const CASES: [Case; 6] = [
    (2, 2, &[1], &[0, 0], None),
    (1, 3, &[0], &[0], Some(BUDGET)),
    (1, 2, &[0], &[0], Some(ROOT)),
    (1, 2, &[1, 1], &[0], Some(FITS)),
    (2, 2, &[1, 1], &[0], Some(STAGE_TWICE)),
    (2, 2, &[1], &[0], Some(RELAXED)),
];

#[test]
fn the_first_rule_that_fails_is_told(rt: HostRuntime) -> Result<(), Fail> {
    let alloc = rt.alloc();
    let network = network(alloc)?;
    let range = network.whole(alloc)?;
    for (most, nodes, roots, outbound, rule) in CASES {
        let below: &[u64] = if most == 2 { &[0, 0, 0] } else { &[0, 0] };
        let tables = tables(alloc, below, 0)?;
        let node = node(alloc, roots, outbound)?;
        assert!(rt; are_sound(&network, &tables));
        let fault = node_fault(alloc, &network, &range, 3, nodes, &tables, &node)?;
        assert_eq!(rt; fault, rule, "nodes {nodes}, most {most}");
    }
    Ok(())
}

// The value of the customer's table, the roots, and their bound.
const BOUNDS: [(u64, &[u32], u64); 4] = [
    (6, &[], 0),
    (6, &[1], 6),
    (6, &[1, 1], 12),
    (INF, &[1, 1], INF),
];

#[test]
fn a_bound_is_the_sum_of_the_roots_values(rt: HostRuntime) -> Result<(), Fail> {
    let network = network(rt.alloc())?;
    for (value, roots, bound) in BOUNDS {
        let tables = tables(rt.alloc(), &[3, 0, 0], value)?;
        assert!(rt;
            are_shaped(&network, &tables) && are_in_range(&tables) && are_roots(&tables, roots)
        );
        assert_eq!(rt; node_bound(&tables, roots), bound);
    }
    Ok(())
}
