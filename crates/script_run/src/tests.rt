ghost use Rattle.std.specs.Prelude.{◌≤◌, ◌+◌, IfOk, IsTrue, length};
ghost use Rattle.stage_file.specs.Records.{AreCountable};
ghost use Rattle.script_run.specs.Sizes.{MayGrow};

use super::*;
use edit_reuse::Session;
use gsm_outside::{MemShelf, MemSink, Shelf, Sink, SureShelf, SureSink};
use service_model::NoMemory;
use stage_file::{Files, Rows, rows_of};
use std::alloc::Global;
use std::test::Fail;
use step_ledger::Steps;

// Whose steps a test counts.
struct Tested;

const STAGES: &[u8] =
    b"stage,lead,supply,least,most,bound,unit\nA,1,,,,t,1\nB,1,,,,t,2\nC,2,,,0,t,3\n";

const TABLES: &[u8] = b"table,x\nt,0,3,5,6,7\n";

const ARCS: &[u8] = b"supplier,customer,quantity\nA,B\nB,C\n";

// No file here is longer.
const LONGEST: usize = 100_000;

fn rows_in(alloc: Global, bytes: &[u8]) -> Result<Rows, NoMemory>
    ensures countable { IfOk result AreCountable }
    ensures few { IfOk result (λ rows. length rows ≤ LONGEST + 1) }
{
    if bytes.len() > LONGEST {
        return Err(NoMemory);
    }
    rows_of(alloc, bytes)
}

// The session of three stages in a line, at a horizon of 4 periods.
fn session_of(alloc: Global) -> Result<Session, Fail> {
    let files = Files {
        stages: rows_in(alloc, STAGES)?,
        tables: rows_in(alloc, TABLES)?,
        arcs: rows_in(alloc, ARCS)?,
    };
    Ok(Session::new(alloc, files, 4, None)?)
}

// Files with few rows may grow by a script with few.
fn may_grow(files: &Files) -> bool
    ensures { IsTrue result → MayGrow files.now (LONGEST + 1) }
{
    files.stages.len() < LONGEST && files.tables.len() < LONGEST && files.arcs.len() < LONGEST
}

// Carries out a script, and counts the tables that are filled.
fn carried<S: Shelf, K: Sink>(
    alloc: Global,
    script: &[u8],
    name: Option<&str>,
    shelf: &mut S,
    out: &mut K,
) -> Result<(Result<(), Halt>, u64), Fail> {
    let mut session = session_of(alloc)?;
    let rows = rows_in(alloc, script)?;
    if !may_grow(session.files()) {
        return Err(NoMemory.into());
    }
    let mut steps = Steps::<Tested>::new();
    let end = carry_out(alloc, &mut session, &rows, name, shelf, out, &mut steps);
    Ok((end, steps.count()))
}

// Each word once: accepted, with another number of fields, for a name that has no record, and for files on which a rule fails.
const ROWS: [(&str, &str); 41] = [
    ("solve", "solve,1,optimal,21,1,3\n"),
    ("solve,now", "edit,2,E2\n"),
    ("set-stage,C,lead,1", "edit,3,done\n"),
    ("set-stage,C,load,1", "edit,4,E1\n"),
    ("set-stage,C", "edit,5,E2\n"),
    ("set-stage,D,lead,1", "edit,6,E3\n"),
    ("set-stage,C,lead,1.5", "edit,7,F5,stages,4,2\n"),
    ("add-stage,D,1,,,0,t,1", "edit,8,done\n"),
    ("add-stage,D,1,,,0,t", "edit,9,E2\n"),
    ("add-stage,A,1,,,0,t,1", "edit,10,F9,stages,6,1\n"),
    ("add-table,u,0,1", "edit,11,done\n"),
    ("add-table,u", "edit,12,E2\n"),
    ("add-table,t,0,1", "edit,13,F9,tables,4,1\n"),
    ("set-table,u,0,2,3", "edit,14,done\n"),
    ("set-table,u", "edit,15,E2\n"),
    ("set-table,v,1", "edit,16,E3\n"),
    ("set-table,t,x", "edit,17,F5,tables,2,2\n"),
    ("drop-table,u", "edit,18,done\n"),
    ("drop-table", "edit,19,E2\n"),
    ("drop-table,u", "edit,20,E3\n"),
    ("drop-table,t", "edit,21,F21,stages,2,6\n"),
    ("add-arc,B,D", "edit,22,done\n"),
    ("add-arc,B", "edit,23,E2\n"),
    ("add-arc,C,A", "edit,24,F20,stages,2,1\n"),
    ("set-arc,B,D,2", "edit,25,done\n"),
    ("set-arc,B,D", "edit,26,E2\n"),
    ("set-arc,A,D,2", "edit,27,E3\n"),
    ("set-arc,B,D,x", "edit,28,F5,arcs,4,3\n"),
    ("drop-arc,B,D", "edit,29,done\n"),
    ("drop-arc,B", "edit,30,E2\n"),
    ("drop-arc,B,D", "edit,31,E3\n"),
    ("drop-stage,D", "edit,32,done\n"),
    ("drop-stage", "edit,33,E2\n"),
    ("drop-stage,D", "edit,34,E3\n"),
    ("drop-stage,C", "edit,35,F14,arcs,3,2\n"),
    (" , ", ""),
    ("sove", "edit,37,E1\n"),
    ("set-stage,A,bound,sum", "edit,38,done\n"),
    ("drop-arc,A,B", "edit,39,F22,stages,2,6\n"),
    ("set-stage,A,bound,t", "edit,40,done\n"),
    ("solve", "solve,41,optimal,18,1,3\n"),
];

#[test]
fn each_word_does_what_it_says(rt: HostRuntime) -> Result<(), Fail> {
    let alloc = rt.alloc();
    let mut script = Vec::new(alloc);
    let mut wanted = Vec::new(alloc);
    for (row, line) in ROWS {
        script.extend_from_slice(row.as_bytes())?;
        script.push(b'\n')?;
        wanted.extend_from_slice(line.as_bytes())?;
    }
    wanted.extend_from_slice(b"end,40\n")?;
    let mut shelf = SureShelf::new(alloc);
    let mut out = SureSink::new(alloc);
    let end = carried(alloc, script.as_slice(), None, &mut shelf, &mut out)?;
    assert_eq!(rt; end, (Ok(()), 6));
    assert_eq!(rt; out.written(), wanted.as_slice());
    Ok(())
}

// Two answers with certificates, and which call on the shelf and which put fails.
#[test]
fn a_failed_write_keeps_what_was_given(rt: HostRuntime) -> Result<(), Fail> {
    let alloc = rt.alloc();
    // A certificate has a head, three tables, a node and an end, and is made before.
    for (call, put, halt, lines) in [
        (8, 9, Halt::Shelf, 1),
        (7, 9, Halt::Shelf, 0),
        (99, 2, Halt::Sink, 1),
    ] {
        let mut shelf = MemShelf::new(alloc, vec![in alloc; call]?);
        let mut out = MemSink::new(alloc, vec![in alloc; put]?);
        let (end, _) = carried(alloc, b"solve\nsolve\n", Some("c"), &mut shelf, &mut out)?;
        assert_eq!(rt; end, Err(halt));
        let first = if lines == 1 {
            b"solve,1,optimal,21,1,3\n".as_slice()
        } else {
            b"".as_slice()
        };
        assert_eq!(rt; out.written(), first);
        assert!(rt; shelf.bytes_of("c-1").is_some());
        assert!(rt; shelf.bytes_of("c").is_none());
    }
    Ok(())
}
