ghost use Rattle.std.specs.Prelude.{IfOk, IsTrue};
ghost use Rattle.stage_file.specs.Records.{AreCountable};
ghost use Rattle.edit_reuse.specs.Refusals.{IsAsked};
ghost use Rattle.edit_reuse.specs.Edits.{IsRoomy, HasRoom, IsShort};
ghost use Rattle.edit_script.specs.Steps.{IsWhole};

// The worked session, and an edit of it that is refused.
use crate::*;
use edit_script::Edit;
use service_model::{List, NoMemory, Outcome};
use stage_file::rules::{BUDGET, CYCLE};
use stage_file::{FileFault, FileKind, Files, ReadFault, Rows, Text, rows_of};
use std::alloc::Global;
use std::test::Fail;
use step_ledger::Steps;

// Whose steps are counted.
struct Fills;

const STAGES: &[u8] = b"stage\nA,1,,,,t,1\nB,1,,,,t,2\nC,2,,,0,t,3\n";

const TABLES: &[u8] = b"table\nt,0,3,5,6,7\n";

const ARCS: &[u8] = b"supplier\nA,B\nB,C\n";

// Ten stages, for no arcs.
const TEN: &[u8] =
    b"stage\nA,1,,,,t,1\nB,1,,,,t,1\nC,1,,,,t,1\nD,1,,,,t,1\nE,1,,,,t,1\nF,1,,,,t,1\nG,1,,,,t,1\nH,1,,,,t,1\nI,1,,,,t,1\nJ,1,,,,t,1\n";

// No file here is longer.
const LONGEST: usize = 1_000_000;

fn rows_in(alloc: Global, bytes: &[u8]) -> Result<Rows, NoMemory>
    ensures { IfOk result AreCountable }
{
    if bytes.len() > LONGEST {
        return Err(NoMemory);
    }
    rows_of(alloc, bytes)
}

fn session(alloc: Global) -> Result<Session, Fail> {
    let files = Files {
        stages: rows_in(alloc, STAGES)?,
        tables: rows_in(alloc, TABLES)?,
        arcs: rows_in(alloc, ARCS)?,
    };
    Ok(Session::new(alloc, files, 4, None)?)
}

// Why no session begins over the ten stages with a horizon of 400, if none does.
fn refused(alloc: Global, asked: Option<u32>) -> Result<Option<ReadFault>, Fail>
    requires { IsAsked asked }
{
    let files = Files {
        stages: rows_in(alloc, TEN)?,
        tables: rows_in(alloc, TABLES)?,
        arcs: rows_in(alloc, b"")?,
    };
    Ok(Session::new(alloc, files, 400, asked).err())
}

fn is_roomy(rows: &Rows) -> bool
    ensures { IsTrue result → IsRoomy rows.now }
{
    rows.len() < LONGEST
}

fn has_room(files: &Files) -> bool
    ensures { IsTrue result → HasRoom files.now }
{
    is_roomy(&files.stages) && is_roomy(&files.tables) && is_roomy(&files.arcs)
}

// Edits the files, which have room.
fn made(session: &mut Session, edit: &Edit) -> Result<Option<SessionFault>, Fail>
    requires whole { IsWhole edit.now }
    requires short { IsShort edit.now }
{
    if !has_room(session.files()) {
        return Err("no room")?;
    }
    Ok(session.edit(edit).err())
}

fn text(alloc: Global, bytes: &[u8]) -> Result<Text, NoMemory> {
    List::copied(alloc, bytes)
}

// The outcome, the bound and the number of tables of an answer.
fn answer(session: &mut Session) -> Result<(Outcome, u64, u64), Fail> {
    let mut steps = Steps::<Fills>::new();
    let cert = session.solve(&mut steps)?;
    Ok((cert.verdict.outcome, cert.verdict.bound, steps.count()))
}

// A stage, its lead time, and then what the least plan costs.
const CASES: [(&'static [u8], &'static [u8], u64); 4] = [
    (b"A", b"1", 21),
    (b"C", b"1", 18),
    (b"A", b"0", 15),
    (b"A", b"0", 15),
];

#[test]
fn each_answer_of_a_session_is_that_of_its_edited_files(rt: HostRuntime) -> Result<(), Fail> {
    let alloc = rt.alloc();
    let mut session = session(alloc)?;
    for (name, lead, cost) in CASES {
        let edit = Edit::SetStage {
            name: text(alloc, name)?,
            column: 2,
            value: text(alloc, lead)?,
        };
        let refused = made(&mut session, &edit)?;
        let said = answer(&mut session)?;
        assert_eq!(rt; (refused, said), (None, (Outcome::Optimal, cost, 3)));
    }
    Ok(())
}

// Ten stages have 4,010 values a range, and 40,000,000 are allowed.
#[test]
fn a_budget_past_the_limit_begins_no_session(rt: HostRuntime) -> Result<(), Fail> {
    let alloc = rt.alloc();
    let fault = FileFault {
        file: FileKind::Words,
        row: 0,
        rule: BUDGET,
        column: 0,
    };
    assert_eq!(rt; refused(alloc, None)?, None);
    assert_eq!(rt; refused(alloc, Some(9_975))?, None);
    assert_eq!(rt; refused(alloc, Some(9_976))?, Some(ReadFault::Fault(fault)));
    Ok(())
}

#[test]
fn a_refused_edit_leaves_the_session(rt: HostRuntime) -> Result<(), Fail> {
    let alloc = rt.alloc();
    let mut session = session(alloc)?;
    let mut row = List::new(alloc);
    row.push(text(alloc, b"C")?)?;
    row.push(text(alloc, b"A")?)?;
    let cycle = made(&mut session, &Edit::AddArc { row })?;
    let fault = FileFault {
        file: FileKind::Stages,
        row: 2,
        rule: CYCLE,
        column: 1,
    };
    let unknown = made(
        &mut session,
        &Edit::DropTable {
            name: text(alloc, b"u")?,
        },
    )?;
    let said = answer(&mut session)?;
    assert_eq!(rt;
        (cycle, unknown, said),
        (
            Some(SessionFault::File(fault)),
            Some(SessionFault::Unknown),
            (Outcome::Optimal, 21, 3)
        )
    );
    Ok(())
}
