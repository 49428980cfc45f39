// Tables of a supplier with lead time 3 and of its customer with lead time 1, by hand.
ghost use Rattle.std.specs.Prelude.{◌≤◌, All, IfNone, IfOk, IsTrue, None};
ghost use Rattle.service_model.specs.CertNumbers.{TableInRange};
ghost use Rattle.service_model.specs.CertRules.{IsFirstOf, TableRule};
ghost use Rattle.table_rules.specs.Shapes.{AreShaped};

use crate::{Scratch, most_floor, table_fault};
use service_model::cert_rules::{CHILD, CHILD_ARC, LOCAL, MAX_NUMBER, SHAPE, TABLE};
use service_model::{
    INF, Kind, List, MAX_TIME, Network, NewFault, NoMemory, Stage, SupplyArc, Table,
};
use std::alloc::Global;
use std::test::Fail;

// A horizon of 4; the supplier, stage 0, may quote at most 3, the customer 0.
fn network(alloc: Global, transit: u16) -> Result<Network, NewFault> {
    let rows: [(u16, u16, &[u64]); 2] = [(3, 3, &[0, 2, 3, 4]), (1, 0, &[0, 5, 7, 8, 9])];
    let mut stages = List::new(alloc);
    for (lead, most, cost) in rows {
        stages.push(Stage {
            lead,
            supply: 0,
            least: 0,
            most,
            cost: List::copied(alloc, cost)?,
        })?;
    }
    let arc = SupplyArc {
        supplier: 0,
        customer: 1,
        transit,
    };
    let arcs = List::copied(alloc, &[arc])?;
    if stages.len() >= 1 << 32 || arcs.len() >= 1 << 32 {
        return Err(NewFault::NoMemory);
    }
    Network::new(alloc, 4, stages, arcs)
}

// A stage, the kind of its table, the table's least, most and floor, its children and its values.
type Row<'a> = (u32, Kind, [u16; 3], &'a [u32], &'a [u64]);

fn table(alloc: Global, row: Row) -> Result<Table, NoMemory> {
    let (stage, kind, [least, most, floor], children, values) = row;
    Ok(Table {
        stage,
        kind,
        least,
        most,
        floor,
        children: List::copied(alloc, children)?,
        values: List::copied(alloc, values)?,
    })
}

fn are_costs(values: &[u64]) -> bool
    ensures { IsTrue result → All (λ x. x ≤ INF) values.now }
{
    values.iter().all(|value| *value <= INF)
}

fn are_numbers(children: &[u32]) -> bool
    ensures { IsTrue result → All (λ c. c ≤ MAX_NUMBER) children.now }
{
    children.iter().all(|child| *child <= MAX_NUMBER)
}

fn is_in_range(table: &Table) -> bool
    ensures { IsTrue result → TableInRange table.now }
{
    let times = table.least.max(table.most).max(table.floor);
    if table.stage > MAX_NUMBER || times > MAX_TIME {
        return false;
    }
    are_numbers(table.children.as_slice()) && are_costs(table.values.as_slice())
}

// The first rule that fails on a table over those before it.
fn fault_over(
    alloc: Global,
    network: &Network,
    table: &Table,
    earlier: &[Table],
) -> Result<Option<u8>, NoMemory>
    requires shaped { AreShaped network.now earlier.now }
    requires numbers { All TableInRange earlier.now }
    ensures numbers { IfOk result (λ fault. IfNone fault (TableInRange table.now)) }
    ensures rules { IfOk result (λ fault. IfNone fault (IsFirstOf (TableRule network.now earlier.now table.now) None)) }
{
    if !is_in_range(table) {
        return Ok(Some(SHAPE));
    }
    let mut scratch = Scratch::new(alloc, network.horizon())?;
    let floor = most_floor(network);
    Ok(table_fault(network, floor, table, earlier, &mut scratch))
}

// The first rule that fails on the first of two tables, or else on the second.
fn fault_of(
    alloc: Global,
    network: &Network,
    first: Row,
    second: Row,
) -> Result<Option<u8>, NoMemory> {
    let first = table(alloc, first)?;
    let second = table(alloc, second)?;
    match fault_over(alloc, network, &first, &[])? {
        None => fault_over(alloc, network, &second, &[first]),
        fault => Ok(fault),
    }
}

const SUPPLIER: Row = (0, Kind::Down, [0, 3, 0], &[], &[4, 3, 2, 0]);

const CUSTOMER: Row = (1, Kind::Up, [0, 0, 0], &[], &[5, 7, 8, 9, INF]);

#[test]
fn each_rule_is_the_first_that_fails(rt: HostRuntime) -> Result<(), Fail> {
    let alloc = rt.alloc();
    let network = network(alloc, 0)?;
    assert_eq!(rt; most_floor(&network), 4);
    let cases: [(Row, Row, Option<u8>); 8] = [
        (SUPPLIER, (1, Kind::Root, [0, 0, 0], &[0], &[9]), None),
        (CUSTOMER, (0, Kind::Root, [0, 3, 0], &[0], &[9]), None),
        (
            SUPPLIER,
            (1, Kind::Root, [0, 0, 5], &[0], &[9]),
            Some(TABLE),
        ),
        (
            SUPPLIER,
            (1, Kind::Root, [0, 0, 0], &[1], &[9]),
            Some(CHILD),
        ),
        (
            CUSTOMER,
            (1, Kind::Root, [0, 0, 0], &[0], &[9]),
            Some(CHILD_ARC),
        ),
        (
            SUPPLIER,
            (1, Kind::Root, [0, 0, 0], &[0], &[10]),
            Some(LOCAL),
        ),
        (
            CUSTOMER,
            (0, Kind::Root, [0, 3, 0], &[0], &[10]),
            Some(LOCAL),
        ),
        (
            CUSTOMER,
            (0, Kind::Root, [0, 3, 0], &[0], &[INF + 1]),
            Some(SHAPE),
        ),
    ];
    for (first, second, fault) in cases {
        assert_eq!(rt; fault_of(alloc, &network, first, second)?, fault);
    }
    Ok(())
}

#[test]
fn a_transit_moves_the_times(rt: HostRuntime) -> Result<(), Fail> {
    let alloc = rt.alloc();
    let network = network(alloc, 1)?;
    assert_eq!(rt; most_floor(&network), 5);
    let cases: [(Row, Row, Option<u8>); 5] = [
        (SUPPLIER, (1, Kind::Root, [0, 0, 0], &[0], &[11]), None),
        (CUSTOMER, (0, Kind::Root, [0, 3, 0], &[0], &[11]), None),
        (
            SUPPLIER,
            (1, Kind::Root, [0, 0, 0], &[0], &[12]),
            Some(LOCAL),
        ),
        (
            CUSTOMER,
            (0, Kind::Root, [0, 3, 0], &[0], &[12]),
            Some(LOCAL),
        ),
        (SUPPLIER, (1, Kind::Root, [0, 0, 5], &[0], &[INF]), None),
    ];
    for (first, second, fault) in cases {
        assert_eq!(rt; fault_of(alloc, &network, first, second)?, fault);
    }
    Ok(())
}
