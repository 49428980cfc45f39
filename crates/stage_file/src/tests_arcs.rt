ghost use Rattle.std.specs.Prelude.{◌≢◌, ◌<◌, ◌^◌, length, IfOk, AllPairs};
ghost use Rattle.stage_file.specs.Records.{AreCountable};

// The worked case of several faults, and the smallest rows that show each rule on arc and plan files.
use crate::rules::*;
use crate::*;
use service_model::{List, MAX_ARCS, NoMemory, Plan};
use std::alloc::Global;
use std::test::*;

const STAGES: &[u8] = b"stage\nA,0,,,,sum,0\nB,0,,,,sum,0\n";

fn rows(alloc: Global, text: &[u8]) -> Result<Rows, NoMemory>
    ensures { IfOk result AreCountable }
{
    if text.len() > 100_000 {
        return Err(NoMemory);
    }
    rows_of(alloc, text)
}

// The stages of a file.
fn stages(alloc: Global, text: &[u8]) -> Result<List<StageRow>, ReadFault>
    ensures few { IfOk result (λ stages. length stages < 2 ^ 32) }
    ensures distinct { IfOk result (λ stages. AllPairs (λ s t. s.name ≢ t.name) stages) }
{
    read_stages(alloc, &rows(alloc, text)?, 10)
}

// The arcs of a text over the stages A and B.
fn arcs(alloc: Global, text: &[u8]) -> Result<List<ArcRow>, ReadFault> {
    read_arcs(alloc, &rows(alloc, text)?, &stages(alloc, STAGES)?)
}

// The plan of a text over the stages A and B.
fn plan(alloc: Global, text: &[u8]) -> Result<Plan, ReadFault> {
    read_plan(alloc, &rows(alloc, text)?, &stages(alloc, STAGES)?)
}

fn refusal(file: FileKind, rule: u8, row: u32, column: u32) -> Option<ReadFault> {
    Some(ReadFault::Fault(FileFault {
        file,
        row,
        rule,
        column,
    }))
}

#[test]
fn each_rule_on_an_arc_file_is_refused_at_its_place(rt: HostRuntime) {
    let cases: [(&[u8], u8, u32, u32); 18] = [
        (b"supplier\nA,B,\xFF\n", NOT_TEXT, 2, 3),
        (b"supplier,\xFF\n", NOT_TEXT, 1, 2),
        (b"customer,supplier\n", HEADER, 1, 1),
        (b"supplier\nA\n", FIELD_COUNT, 2, 0),
        (b"supplier\nA,B,1,1\n", FIELD_COUNT, 2, 0),
        (b"supplier\nA,B,1.0\n", NUMBER, 2, 3),
        (b"supplier\nA,B,1001\n", RANGE, 2, 3),
        (b"supplier\na,B\n", SUPPLIER, 2, 1),
        (b"supplier\nA,b\n", CUSTOMER, 2, 2),
        (b"supplier\nA,A\n", SELF_ARC, 2, 2),
        (b"supplier\nA,B\nA,B,2\n", ARC_TWICE, 3, 2),
        // several faults, of which the earliest record has the first
        (b"supplier\nA,B,1\nA,A,1\nA,B,1\nA,Z,1\n", SELF_ARC, 3, 2),
        (b"supplier\nA,A\nA,B,x\n", SELF_ARC, 2, 2),
        // a lower rule of one record
        (b"supplier\nZ,Z,x\n", NUMBER, 2, 3),
        (b"supplier\nZ,Z\n", SUPPLIER, 2, 1),
        (b"supplier\nA,B\nA,Z,1,1\n", FIELD_COUNT, 3, 0),
        // a lower column of one rule
        (b"supplier\n\xFF,\xFF\n", NOT_TEXT, 2, 1),
        // records that are passed over keep their numbers
        (b"supplier\n , \nA,A\n", SELF_ARC, 3, 2),
    ];
    for (text, rule, row, column) in cases {
        assert_eq!(rt;
            arcs(rt.alloc(), text).err(),
            refusal(FileKind::Arcs, rule, row, column),
            "F{rule} at {row}, {column}"
        );
    }
}

// The stages named by a byte each, and all arcs between them.
fn all_arcs(alloc: Global, names: &[u8]) -> Result<(Vec<u8>, Vec<u8>), NoMemory> {
    let mut stages = Vec::from_slice(alloc, b"stage\n")?;
    let mut arcs = Vec::from_slice(alloc, b"supplier\n")?;
    for supplier in names {
        stages.push(*supplier)?;
        stages.extend_from_slice(b",0,,,,sum,0\n")?;
        for customer in names {
            if *supplier != *customer {
                arcs.extend_from_slice(&[*supplier, b',', *customer, b'\n'])?;
            }
        }
    }
    Ok((stages, arcs))
}

#[test]
fn five_thousand_arcs_are_read_and_one_more_is_refused(rt: HostRuntime) -> Result<(), Fail> {
    // 72 stages, and 5,112 arcs of 4 bytes behind a header of 9
    let names = b"0123456789ABCDEFGHIJKLMNOPQRSTUVWXYZabcdefghijklmnopqrstuvwxyz!#$%&()*+-";
    let (stage_file, mut arc_file) = all_arcs(rt.alloc(), names)?;
    let stages = stages(rt.alloc(), &stage_file)?;
    assert_eq!(rt;
        read_arcs(rt.alloc(), &rows(rt.alloc(), &arc_file)?, &stages).err(),
        refusal(FileKind::Arcs, TOO_MANY, 5_002, 0)
    );
    arc_file.truncate(9 + 4 * MAX_ARCS);
    let arcs = read_arcs(rt.alloc(), &rows(rt.alloc(), &arc_file)?, &stages)?;
    assert_eq!(rt; arcs.len(), MAX_ARCS);
    Ok(())
}

#[test]
fn a_blank_quantity_is_one(rt: HostRuntime) -> Result<(), Fail> {
    let arcs = arcs(rt.alloc(), b"Supplier,customer\nB,A\nA,B, 7 , \n")?;
    assert_eq!(rt; arcs.len(), 2);
    let first = ArcRow {
        supplier: 1,
        customer: 0,
        quantity: 1,
        transit: 0,
        row: 2,
    };
    assert_eq!(rt; *arcs.get(0), first);
    let second = ArcRow {
        supplier: 0,
        customer: 1,
        quantity: 7,
        transit: 0,
        row: 3,
    };
    assert_eq!(rt; *arcs.get(1), second);
    Ok(())
}

#[test]
fn each_rule_on_a_plan_file_is_refused_at_its_place(rt: HostRuntime) {
    let cases: [(&[u8], u8, u32, u32); 16] = [
        (b"stage\nA,0,0,x,\xFF\n", NOT_TEXT, 2, 5),
        (b"plan\n", HEADER, 1, 1),
        (b"stage\nA,0,\n", FIELD_COUNT, 2, 0),
        (b"stage\nA,,0\n", NUMBER, 2, 2),
        (b"stage\nA,0, ,x\n", NUMBER, 2, 3),
        (b"stage\nA,1001,0\n", RANGE, 2, 2),
        (b"stage\nA,0,1001\n", RANGE, 2, 3),
        (b"stage\nZ,0,0\n", PLAN_STAGE, 2, 1),
        (b"stage\nA,0,0\nA,0,0\n", PLAN_STAGE, 3, 1),
        (b"stage\nB,0,0\n", PLAN_MISSING, 0, 0),
        (b"", PLAN_MISSING, 0, 0),
        // an earlier record, and each record before the stages that are missing
        (b"stage\nZ,0,0\nA\n", PLAN_STAGE, 2, 1),
        (b"stage\nA,0,0\nZ,0,0\n", PLAN_STAGE, 3, 1),
        // a lower rule of one record
        (b"stage\nZ,1001,x\n", NUMBER, 2, 3),
        (b"stage\nZ,0,1001\n", RANGE, 2, 3),
        // a lower column of one rule
        (b"stage\nA,x,x\n", NUMBER, 2, 2),
    ];
    for (text, rule, row, column) in cases {
        assert_eq!(rt;
            plan(rt.alloc(), text).err(),
            refusal(FileKind::Plan, rule, row, column),
            "F{rule} at {row}, {column}"
        );
    }
}

#[test]
fn a_plan_is_in_the_order_of_the_stages(rt: HostRuntime) -> Result<(), Fail> {
    let plan = plan(
        rt.alloc(),
        b"stage,inbound,outbound\nB,3,1000,further,x\n\nA,1,0\n",
    )?;
    assert_eq!(rt; plan.inbound.as_slice(), [1, 3].as_slice());
    assert_eq!(rt; plan.outbound.as_slice(), [0, 1000].as_slice());
    Ok(())
}

fn net(alloc: Global, stages: &[u8], tables: &[u8], arcs: &[u8]) -> Result<RawNet, ReadFault> {
    let files = Files {
        stages: rows(alloc, stages)?,
        tables: rows(alloc, tables)?,
        arcs: rows(alloc, arcs)?,
    };
    raw_net(alloc, &files, 5)
}

#[test]
fn the_three_files_are_read_in_turn(rt: HostRuntime) -> Result<(), Fail> {
    let stages = b"stage\nA,3,,,,a,1\nB,2,,,0,b,1\n";
    let tables = b"table\na,0,2,3,4\nb,0,5,7,9,10,12\n";
    let raw = net(rt.alloc(), stages, tables, b"supplier\nA,B\n")?;
    assert_eq!(rt;
        (raw.horizon, raw.stages.len(), raw.tables.len()),
        (5, 2, 2)
    );
    assert_eq!(rt; raw.arcs.len(), 1);
    let arc = raw.arcs.get(0);
    assert_eq!(rt; (arc.supplier, arc.customer, arc.quantity), (0, 1, 1));

    let wrong = b"x\n";
    let turns: [(&[u8], &[u8], FileKind); 3] = [
        (wrong, wrong, FileKind::Stages),
        (stages, wrong, FileKind::Tables),
        (stages, tables, FileKind::Arcs),
    ];
    for (stages, tables, file) in turns {
        let fault = net(rt.alloc(), stages, tables, wrong).err();
        assert_eq!(rt; fault, refusal(file, HEADER, 1, 1));
    }
    Ok(())
}
