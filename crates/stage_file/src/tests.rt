ghost use Rattle.std.specs.Prelude.{◌≤◌, IfOk};
ghost use Rattle.service_model.specs.declared.limits.TheConstants.{MAX_HORIZON};
ghost use Rattle.stage_file.specs.Records.{AreCountable};

// Files of the worked cases, and the smallest rows that show each rule on stage and table files.
use crate::rules::*;
use crate::*;
use service_model::{List, NoMemory};
use std::alloc::Global;
use std::test::Fail;

const STAGES: &[u8] = b"stage,lead,supply,least,most,bound,unit\n";

const TABLES: &[u8] = b"table,x\n";

// Records, with the record, the rule and the column of their refusal.
type Case = (&'static [u8], u32, u8, u32);

// No file here is longer.
const LONGEST: usize = 1_000_000;

fn rows_below(alloc: Global, header: &[u8], records: &[u8]) -> Result<Rows, NoMemory>
    ensures { IfOk result AreCountable }
{
    let mut file = Vec::from_slice(alloc, header)?;
    file.extend_from_slice(records)?;
    if file.len() > LONGEST {
        return Err(NoMemory);
    }
    rows_of(alloc, &file)
}

fn stages_of(
    alloc: Global,
    header: &[u8],
    records: &[u8],
    horizon: u16,
) -> Result<Result<List<StageRow>, ReadFault>, NoMemory>
    requires { horizon ≤ MAX_HORIZON }
{
    let rows = rows_below(alloc, header, records)?;
    Ok(read_stages(alloc, &rows, horizon))
}

fn tables_of(
    alloc: Global,
    header: &[u8],
    records: &[u8],
) -> Result<Result<List<TableRow>, ReadFault>, NoMemory> {
    let rows = rows_below(alloc, header, records)?;
    Ok(read_tables(alloc, &rows))
}

fn refusal(file: FileKind, row: u32, rule: u8, column: u32) -> Option<ReadFault> {
    Some(ReadFault::Fault(FileFault {
        file,
        row,
        rule,
        column,
    }))
}

#[test]
fn the_usual_producer_is_read(rt: HostRuntime) -> Result<(), Fail> {
    let header = b"\xEF\xBB\xBFstage,lead,supply,least,most,bound,unit\r\n";
    let record = b"\"Hub, north\", 7 ,,,6,flat,2";
    let stages = stages_of(rt.alloc(), header, record, 8)??;
    assert_eq!(rt; stages.len(), 1);
    let hub = stages.get(0);
    assert_eq!(rt; hub.name.as_slice(), b"Hub, north".as_slice());
    assert_eq!(rt; (hub.lead, hub.supply, hub.least, hub.most), (7, 0, 0, 6));
    assert!(rt; matches!(&hub.bound, Bound::Named(name) if name.as_slice() == b"flat".as_slice()));
    assert_eq!(rt; (hub.unit, hub.row), (2, 2));

    let tables = tables_of(rt.alloc(), TABLES, b"flat,0,3,6,8\n")??;
    assert_eq!(rt; tables.len(), 1);
    assert_eq!(rt; tables.get(0).name.as_slice(), b"flat".as_slice());
    assert_eq!(rt; tables.get(0).entries.as_slice(), [0, 3, 6, 8].as_slice());
    assert_eq!(rt; tables.get(0).row, 2);
    Ok(())
}

const STAGE_CASES: [Case; 22] = [
    (b"\xFF,5,,,2,t,1\n", 2, NOT_TEXT, 1),
    (b"A,5,,,2,t\n", 2, FIELD_COUNT, 0),
    (b"A,5,,,2,t,  \n", 2, FIELD_COUNT, 0),
    (b"A,5,,,2,t,1,1\n", 2, FIELD_COUNT, 0),
    (b",5,,,2,t,1\n", 2, NAME, 1),
    (b"A,5.0,,,2,t,1\n", 2, NUMBER, 2),
    (b"A,,,,2,t,1\n", 2, NUMBER, 2),
    (b"A,5,,,2,t,-1\n", 2, NUMBER, 7),
    (b"A,1001,,,2,t,1\n", 2, RANGE, 2),
    (b"A,5,,,2,t,1000001\n", 2, RANGE, 7),
    (b"", 0, NO_STAGES, 0),
    (b"A,5,,,2,t,1\nA,5,,,2,t,1\n", 3, TWICE, 1),
    (b"A,5,,3,2,t,1\n", 2, LIMITS, 4),
    (b"A,5,11,,2,t,1\n", 2, PAST_HORIZON, 3),
    (b"A,5,,11,,t,1\n", 2, PAST_HORIZON, 4),
    (b"A,5,,,2,normal:x,1\n", 2, BOUND, 6),
    (b"A,5,,,2,normal:1000000001,1\n", 2, BOUND, 6),
    // A later rule in an earlier record comes first,
    (b"A,5,,,2,normal:x,1\n\xFF,5,,,2,t,1\n", 2, BOUND, 6),
    // an earlier rule in the same record,
    (b"A,5,,,2,t,1\nA,5,,3,2,t,1\n", 3, TWICE, 1),
    (b"A,1001,,x,2,t,1\n", 2, NUMBER, 4),
    // and an earlier column of the same rule.
    (b"A,5,x,y,2,t,1\n", 2, NUMBER, 3),
    // A record that is passed over keeps its number.
    (b" , \nA,5.0,,,2,t,1\n", 3, NUMBER, 2),
];

#[test]
fn each_rule_on_a_stage_file_is_refused_at_its_place(rt: HostRuntime) -> Result<(), Fail> {
    for (records, row, rule, column) in STAGE_CASES {
        let read = stages_of(rt.alloc(), STAGES, records, 10)?;
        assert_eq!(rt;
            read.err(),
            refusal(FileKind::Stages, row, rule, column),
            "F{rule} at {row} and {column}"
        );
    }
    Ok(())
}

const TABLE_CASES: [Case; 14] = [
    (b"t,\xC3\n", 2, NOT_TEXT, 2),
    (b"t\n", 2, FIELD_COUNT, 0),
    (b"t, \n", 2, FIELD_COUNT, 0),
    (b",1\n", 2, NAME, 1),
    (b"t,1,x\n", 2, NUMBER, 3),
    (b"t,1, ,2\n", 2, NUMBER, 3),
    (b"t,1,1000000001\n", 2, RANGE, 3),
    (b"t,1\nt,1\n", 3, TWICE, 1),
    (b"t,0,10,14,17,20,22\nsum,1\n", 3, TABLE_NAME, 1),
    (b"pool,1\n", 2, TABLE_NAME, 1),
    (b"normal:,1\n", 2, TABLE_NAME, 1),
    (b"sum,1\nt,x\n", 2, TABLE_NAME, 1),
    (b"t,1000000001,x\n", 2, NUMBER, 3),
    (b"t,1000000001,1000000001\n", 2, RANGE, 2),
];

#[test]
fn each_rule_on_a_table_file_is_refused_at_its_place(rt: HostRuntime) -> Result<(), Fail> {
    for (records, row, rule, column) in TABLE_CASES {
        let read = tables_of(rt.alloc(), TABLES, records)?;
        assert_eq!(rt;
            read.err(),
            refusal(FileKind::Tables, row, rule, column),
            "F{rule} at {row} and {column}"
        );
    }
    Ok(())
}

const HEADER_CASES: [Case; 4] = [
    (b"stages\n", 1, HEADER, 1),
    (b" \n stage\n", 2, HEADER, 1),
    (b"stage,lead,\xFF\n", 1, NOT_TEXT, 3),
    (b"", 1, HEADER, 1),
];

#[test]
fn a_header_is_the_word_in_either_case(rt: HostRuntime) -> Result<(), Fail> {
    let plain = b"A,5,,,2,t,1\n";
    assert!(rt; stages_of(rt.alloc(), b"STage, any \n", plain, 10)?.is_ok());
    assert!(rt; stages_of(rt.alloc(), b" , \nstage\n", plain, 10)?.is_ok());
    assert!(rt; tables_of(rt.alloc(), b"", b"")?.is_ok());

    for (header, row, rule, column) in HEADER_CASES {
        let read = stages_of(rt.alloc(), header, plain, 10)?;
        assert_eq!(rt;
            read.err(),
            refusal(FileKind::Stages, row, rule, column),
            "F{rule} at {row} and {column}"
        );
    }
    Ok(())
}

#[test]
fn the_first_record_or_entry_too_many_is_refused(rt: HostRuntime) -> Result<(), Fail> {
    let mut stages = Vec::new(rt.alloc());
    let mut tables = Vec::new(rt.alloc());
    let mut long_table = Vec::from_slice(rt.alloc(), b"t")?;
    for k in 0..1_000u32 {
        stages.extend_from_slice(format!(in rt.alloc(); "s{k},0,,,,sum,0\n")?.as_bytes())?;
        tables.extend_from_slice(format!(in rt.alloc(); "t{k},0\n")?.as_bytes())?;
        long_table.extend_from_slice(b",0")?;
    }
    long_table.extend_from_slice(b",0")?;
    assert!(rt; stages_of(rt.alloc(), STAGES, &stages, 0)?.is_ok());
    assert!(rt; tables_of(rt.alloc(), TABLES, &tables)?.is_ok());
    assert!(rt; tables_of(rt.alloc(), TABLES, &long_table)?.is_ok());

    stages.extend_from_slice(b"A,0,,,,sum,0\n")?;
    tables.extend_from_slice(b"t,0\n")?;
    long_table.extend_from_slice(b",0")?;
    let read = stages_of(rt.alloc(), STAGES, &stages, 0)?;
    assert_eq!(rt; read.err(), refusal(FileKind::Stages, 1_002, TOO_MANY, 0));
    let read = tables_of(rt.alloc(), TABLES, &tables)?;
    assert_eq!(rt; read.err(), refusal(FileKind::Tables, 1_002, TOO_MANY, 0));
    let read = tables_of(rt.alloc(), TABLES, &long_table)?;
    assert_eq!(rt; read.err(), refusal(FileKind::Tables, 2, FIELD_COUNT, 0));
    Ok(())
}

#[test]
fn blanks_are_filled_and_a_greatest_time_past_the_horizon_is_the_horizon(
    rt: HostRuntime,
) -> Result<(), Fail> {
    let records = b"A,1000, 8 , ,9,sum,0\nB,0,,3,,pool,0\nC,0,,,,normal: 120 ,1000000\n";
    let stages = stages_of(rt.alloc(), STAGES, records, 8)??;
    assert_eq!(rt; stages.len(), 3);
    let (a, b, c) = (stages.get(0), stages.get(1), stages.get(2));
    assert_eq!(rt; (a.lead, a.supply, a.least, a.most), (1_000, 8, 0, 8));
    assert_eq!(rt; (b.lead, b.supply, b.least, b.most), (0, 0, 3, 8));
    assert_eq!(rt; (c.unit, c.row), (1_000_000, 4));
    assert!(rt; matches!(a.bound, Bound::Sum));
    assert!(rt; matches!(b.bound, Bound::Pool));
    assert!(rt; matches!(c.bound, Bound::Normal(120)));
    Ok(())
}

#[test]
fn names_keep_the_places_in_which_they_were_put(rt: HostRuntime) -> Result<(), Fail> {
    let mut names = Names::new(rt.alloc());
    for name in [b"Hub".as_slice(), b"hub".as_slice(), b" Hub".as_slice()] {
        assert!(rt; !names.has(name));
        names.push(name)?;
    }
    assert_eq!(rt; names.len(), 3);
    assert_eq!(rt; names.place_of(b"hub"), Some(1));
    assert_eq!(rt; names.place_of(b" Hub"), Some(2));
    assert_eq!(rt; names.place_of(b"Hub "), None);
    Ok(())
}
