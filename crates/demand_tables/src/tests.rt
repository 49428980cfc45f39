ghost use Rattle.std.specs.Prelude.{◌<◌, ◌≤◌, All, IfOk, IsTrue};
ghost use Rattle.stage_file.specs.Records.{AreCountable};

// The worked demands, and the smallest files that show each rule and the order in which stages are tested.
use crate::tables_of;
use service_model::{List, NoMemory};
use stage_file::rules::{NO_CUSTOMERS, NO_TABLE, TOO_LARGE};
use stage_file::{ArcRow, FileFault, FileKind, Files, ReadFault, Rows, raw_net, rows_of};
use std::alloc::Global;
use std::test::*;

fn rows(alloc: Global, text: &[u8]) -> Result<Rows, NoMemory>
    ensures { IfOk result AreCountable }
{
    if text.len() > 100_000 {
        return Err(NoMemory);
    }
    rows_of(alloc, text)
}

// Whether each arc leads on in the stage file, so that there is no cycle.
fn lead_on(arcs: &[ArcRow]) -> bool
    ensures { IsTrue result → All (λ a. a.supplier < a.customer) arcs.now }
{
    arcs.iter().all(|a| a.supplier < a.customer)
}

// The excess demands of three files whose arcs lead on.
fn demand_of(
    alloc: Global,
    horizon: u16,
    stages: &[u8],
    tables: &[u8],
    arcs: &[u8],
) -> Result<List<List<u64>>, ReadFault>
    requires { horizon ≤ 400 }
{
    let files = Files {
        stages: rows(alloc, stages)?,
        tables: rows(alloc, tables)?,
        arcs: rows(alloc, arcs)?,
    };
    let raw = raw_net(alloc, &files, horizon)?;
    if !lead_on(raw.arcs.as_slice()) {
        return Err(ReadFault::NoMemory);
    }
    tables_of(alloc, &raw)
}

fn is(lists: &List<List<u64>>, stage: usize, excess: &[u64]) -> bool {
    stage < lists.len() && lists.get(stage).as_slice() == excess
}

#[test]
fn roots_are_rounded_up(rt: HostRuntime) -> Result<(), Fail> {
    let stages =
        b"stage\nP,0,,,,pool,1\nQ,0,,,,pool,1\nA,0,,,,three,1\nB,0,,,,four,1\nC,0,,,,three,1\nN,0,,,,normal:5,1\n";
    let tables = b"table\nthree,3\nfour,4\n";
    let arcs = b"supplier\nP,A\nP,B\nQ,A\nQ,C\n";
    let lists = demand_of(rt.alloc(), 3, stages, tables, arcs)?;
    assert_eq!(rt; lists.len(), 6);
    assert!(rt; is(&lists, 5, &[0, 5, 8, 9]), "a normal bound");
    assert!(rt; is(&lists, 0, &[5]), "customers with 3 and 4, pooled");
    assert!(rt; is(&lists, 1, &[5]), "customers with 3 and 3, pooled");
    Ok(())
}

#[test]
fn customers_are_summed_by_their_quantities_over_the_shortest(rt: HostRuntime) -> Result<(), Fail> {
    let stages = b"stage\nS,0,,,,sum,1\nP,0,,,,pool,1\nA,0,,,,long,1\nB,0,,,,short,1\n";
    let tables = b"table\nlong,1,2,3,4,5\nshort,0,2\n";
    let arcs = b"supplier\nS,A,2\nS,B,3\nP,A,2\nP,B\n";
    let lists = demand_of(rt.alloc(), 3, stages, tables, arcs)?;
    assert!(rt; is(&lists, 0, &[2, 10]), "2 * 1 + 3 * 0, 2 * 2 + 3 * 2");
    assert!(rt; is(&lists, 1, &[2, 5]), "roots of 4 and of 16 + 4");
    assert!(rt; is(&lists, 2, &[1, 2, 3, 4]), "up to the horizon");
    assert!(rt; is(&lists, 3, &[0, 2]), "a table that ends before it");
    Ok(())
}

// Whether the bounds are refused by the rule, at the record of the stage file.
fn is_refused(alloc: Global, stages: &[u8], arcs: &[u8], rule: u8, row: u32) -> bool {
    let fault = ReadFault::Fault(FileFault {
        file: FileKind::Stages,
        row,
        rule,
        column: 6,
    });
    demand_of(alloc, 2, stages, b"", arcs).err() == Some(fault)
}

#[test]
fn each_rule_is_refused_at_its_first_stage(rt: HostRuntime) {
    let alloc = rt.alloc();
    let (unknown, sum, pool) = (
        b"stage\nA,0,,,,u,1\n",
        b"stage\nA,0,,,,sum,1\n",
        b"stage\nA,0,,,,pool,1\n",
    );
    assert!(rt; is_refused(alloc, unknown, b"", NO_TABLE, 2), "no table");
    assert!(rt;
        is_refused(alloc, sum, b"", NO_CUSTOMERS, 2),
        "no customers"
    );
    assert!(rt;
        is_refused(alloc, pool, b"", NO_CUSTOMERS, 2),
        "nor for a pool"
    );
    let both = b"stage\nA,0,,,,sum,1\nB,0,,,,u,1\n";
    assert!(rt;
        is_refused(alloc, both, b"", NO_TABLE, 3),
        "a table comes before customers"
    );
    let large = b"stage\nA,0,,,,normal:1000000000,1\nB,0,,,,sum,1\nC,0,,,,normal:1000000000,1\n";
    let behind = b"supplier\nA,B\nB,C\n";
    assert!(rt;
        is_refused(alloc, large, b"supplier\nB,C\n", TOO_LARGE, 2),
        "the lowest stage without customers"
    );
    assert!(rt;
        is_refused(alloc, large, behind, TOO_LARGE, 4),
        "customers before their suppliers"
    );
}

#[test]
fn a_demand_at_the_limit_is_given(rt: HostRuntime) -> Result<(), Fail> {
    let stages = b"stage\nA,0,,,,normal:1000000000,1\n";
    let lists = demand_of(rt.alloc(), 1, stages, b"", b"")?;
    assert!(rt; is(&lists, 0, &[0, 1_000_000_000]));
    Ok(())
}
