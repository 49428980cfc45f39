ghost use Rattle.std.specs.Prelude.{IfOk, IfSome};
ghost use Rattle.service_model.specs.Plans.{HasTimes, Feasible};
ghost use Rattle.stage_file.specs.Records.{AreCountable};
ghost use Rattle.network_check.specs.Checked.{IsChecked};

use super::*;
use command_words::{FileWord, WordFault};
use network_check::{Checked, check};
use service_model::{List, NoMemory, Outcome, Plan, Verdict};
use stage_file::{FileFault, FileKind, Files, Rows, Text, rows_of};
use std::alloc::Global;
use std::test::Fail;

pub fn rows(alloc: Global, text: &[u8]) -> Result<Rows, NoMemory>
    ensures { IfOk result AreCountable }
{
    if text.len() > 1_000 {
        return Err(NoMemory);
    }
    rows_of(alloc, text)
}

// A supplies a stage whose name has to be quoted.
fn two_stages(alloc: Global) -> Result<Checked, Fail>
    ensures { IfOk result IsChecked }
{
    let files = Files {
        stages: rows(alloc, b"stage\nA,3,,,,a,1\n\"Hub, north\",2,,,0,b,2\n")?,
        tables: rows(alloc, b"table\na,0,2,3,4\nb,0,5,7,9,10,12\n")?,
        arcs: rows(alloc, b"supplier\nA,\"Hub, north\",1\n")?,
    };
    let checked = check(alloc, &files, 5)?;
    Ok(checked)
}

pub fn plan_of(
    alloc: Global,
    checked: &Checked,
    inbound: &[u16],
    outbound: &[u16],
) -> Result<Plan, Fail>
    ensures { IfOk result (HasTimes checked.now.network) }
{
    let stages = checked.network.stages().len();
    if inbound.len() != stages || outbound.len() != stages {
        return Err("there are not two times for each stage".into());
    }
    Ok(Plan {
        inbound: List::copied(alloc, inbound)?,
        outbound: List::copied(alloc, outbound)?,
    })
}

// The inbound and the outbound times of a plan, and what is printed.
const PLANS: [([u16; 2], [u16; 2], &str); 3] = [
    (
        [0, 0],
        [0, 0],
        "feasible,18\nstage,inbound,outbound,time,stock,cost\nA,0,0,3,4,4\n\"Hub, north\",0,0,2,7,14\n",
    ),
    ([0, 0], [1, 0], "broken,B7,A,\"Hub, north\"\n"),
    ([0, 6], [0, 0], "broken,B2,\"Hub, north\"\n"),
];

#[test]
fn a_plan_is_reported_or_its_broken_rule_told(rt: HostRuntime) -> Result<(), Fail> {
    let alloc = rt.alloc();
    let checked = two_stages(alloc)?;
    for (inbound, outbound, told) in PLANS {
        let plan = plan_of(alloc, &checked, &inbound, &outbound)?;
        let text = audit_text(alloc, &checked, &plan)?;
        assert_eq!(rt; text.as_slice(), told.as_bytes());
    }
    Ok(())
}

pub fn feasible_plan(
    alloc: Global,
    checked: &Checked,
    inbound: &[u16],
    outbound: &[u16],
) -> Result<Plan, Fail>
    ensures { IfOk result (Feasible checked.now.network) }
{
    let plan = plan_of(alloc, checked, inbound, outbound)?;
    match checked.network.first_break(&plan) {
        None => Ok(plan),
        Some(_) => Err("the plan is not feasible".into()),
    }
}

// What `solve` and `check` print for a verdict with the bound 18.
fn texts_of(
    alloc: Global,
    checked: &Checked,
    outcome: Outcome,
    plan: Option<Plan>,
) -> Result<(Text, Text), NoMemory>
    requires checked { IsChecked checked.now }
    requires feasible { IfSome plan (Feasible checked.now.network) }
{
    let verdict = Verdict {
        outcome,
        bound: 18,
        plan,
    };
    let solved = answer_text(alloc, checked, &verdict, 3, 10)?;
    let valid = valid_text(alloc, &checked.network, &verdict)?;
    Ok((solved, valid))
}

#[test]
fn a_least_plan_is_reported(rt: HostRuntime) -> Result<(), Fail> {
    let alloc = rt.alloc();
    let checked = two_stages(alloc)?;
    let plan = feasible_plan(alloc, &checked, &[0, 0], &[0, 0])?;
    let (solved, valid) = texts_of(alloc, &checked, Outcome::Optimal, Some(plan))?;
    assert_eq!(rt;
        solved.as_slice(),
        b"optimal,18\nstage,inbound,outbound,time,stock,cost\nA,0,0,3,4,4\n\"Hub, north\",0,0,2,7,14\nranges,3\nfilled,10\n".as_slice()
    );
    assert_eq!(rt; valid.as_slice(), b"valid,optimal,18\n".as_slice());
    Ok(())
}

// Outcomes without a plan, and what is printed for them.
const PLANLESS: [(Outcome, &str, &str); 2] = [
    (
        Outcome::Infeasible,
        "infeasible\nranges,3\nfilled,10\n",
        "valid,infeasible\n",
    ),
    (
        Outcome::Spent,
        "spent,18,-\nranges,3\nfilled,10\n",
        "valid,spent,18,-\n",
    ),
];

#[test]
fn a_verdict_without_a_plan_has_no_report(rt: HostRuntime) -> Result<(), Fail> {
    let alloc = rt.alloc();
    let checked = two_stages(alloc)?;
    for (outcome, told, accepted) in PLANLESS {
        let (solved, valid) = texts_of(alloc, &checked, outcome, None)?;
        let got = (solved.as_slice(), valid.as_slice());
        assert_eq!(rt; got, (told.as_bytes(), accepted.as_bytes()));
    }
    Ok(())
}

fn is(text: Result<Text, NoMemory>, told: &str) -> bool {
    match text {
        Ok(text) => text.as_slice() == told.as_bytes(),
        Err(_) => false,
    }
}

#[test]
fn what_is_refused_is_told_in_one_line(rt: HostRuntime) -> Result<(), Fail> {
    let alloc = rt.alloc();
    let words = WordFault { rule: 4, place: 3 };
    let refused = FileFault {
        file: FileKind::Plan,
        row: 5,
        rule: 18,
        column: 1,
    };
    let told = [
        is(words_text(alloc, words), "words,W4,3\n"),
        is(refused_text(alloc, refused), "refused,F18,plan,5,1\n"),
        is(too_long_text(alloc, FileWord::Stages), "too long,stages\n"),
        is(too_long_text(alloc, FileWord::Script), "too long,script\n"),
        is(read_fault_text(alloc, FileWord::Arcs), "read fault,arcs\n"),
        is(write_fault_text(alloc), "write fault,cert\n"),
        is(not_accepted_text(alloc, 5, 13), "not accepted,5,K13\n"),
    ];
    assert_eq!(rt; told, [true; 7]);
    Ok(())
}

#[test]
fn each_edit_of_a_session_has_its_line(rt: HostRuntime) -> Result<(), Fail> {
    let alloc = rt.alloc();
    let refused = FileFault {
        file: FileKind::Stages,
        row: 2,
        rule: 20,
        column: 1,
    };
    let told = [
        is(edit_done_text(alloc, 4), "edit,4,done\n"),
        is(edit_fault_text(alloc, 7, 3), "edit,7,E3\n"),
        is(
            edit_refused_text(alloc, 2, refused),
            "edit,2,F20,stages,2,1\n",
        ),
        is(session_end_text(alloc, 6), "end,6\n"),
    ];
    assert_eq!(rt; told, [true; 4]);
    Ok(())
}

// The line for a verdict with the bound 18 at record 3 of a script.
fn session_line(
    alloc: Global,
    checked: &Checked,
    outcome: Outcome,
    plan: Option<Plan>,
) -> Result<Text, NoMemory>
    requires { IfSome plan (Feasible checked.now.network) }
{
    let verdict = Verdict {
        outcome,
        bound: 18,
        plan,
    };
    session_answer_text(alloc, 3, &checked.network, &verdict, 1, 5)
}

#[test]
fn each_answer_of_a_session_has_its_line(rt: HostRuntime) -> Result<(), Fail> {
    let alloc = rt.alloc();
    let checked = two_stages(alloc)?;
    let plan = feasible_plan(alloc, &checked, &[0, 0], &[0, 0])?;
    let optimal = session_line(alloc, &checked, Outcome::Optimal, Some(plan));
    let infeasible = session_line(alloc, &checked, Outcome::Infeasible, None);
    let spent = session_line(alloc, &checked, Outcome::Spent, None);
    let told = [
        is(optimal, "solve,3,optimal,18,1,5\n"),
        is(infeasible, "solve,3,infeasible,1,5\n"),
        is(spent, "solve,3,spent,18,-,1,5\n"),
    ];
    assert_eq!(rt; told, [true; 3]);
    Ok(())
}
