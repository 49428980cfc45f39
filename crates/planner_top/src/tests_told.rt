use super::*;
use crate::search::cert_for;
use crate::task::{Task, trial_of};
use crate::tests::{run_once, words_of};
use crate::tests_check::cert_with;
use crate::tests_loops::{DIAMOND, LAPTOP, LINES, shelf_of, solve_within};
use cert_check::check;
use command_words::TrialNumbers;
use gsm_outside::{SureShelf, SureSink};
use service_model::Outcome;
use std::alloc::Global;
use std::test::Fail;
use step_ledger::Steps;

// Whose steps a test counts.
struct Counted;

const EXPLAINED: &str =
    "valid,optimal,7\nnode,0,6,split,C,D,0\nnode,1,7,leaf\nnode,2,8,leaf\ntight,A,B,2\ntight,A,C,2\ntight,B,D,0\ntight,C,D,0\nlimit,A,2\nlimit,D,0\n";

// Runs a command over a shelf, into the sink.
fn ask(
    alloc: Global,
    all: &[&str],
    shelf: &mut SureShelf,
    out: &mut SureSink,
) -> Result<Status, Fail> {
    let words = words_of(alloc, all)?;
    Ok(run_once(alloc, &words, shelf, out))
}

// Explains a certificate of a network, into the sink.
fn explain_over(
    alloc: Global,
    horizon: &str,
    shelf: &mut SureShelf,
    out: &mut SureSink,
) -> Result<Status, Fail> {
    let all = [
        "explain", "stages=s", "tables=t", "arcs=a", horizon, "cert=c",
    ];
    ask(alloc, &all, shelf, out)
}

#[test]
fn an_accepted_certificate_is_explained(rt: HostRuntime) -> Result<(), Fail> {
    let alloc = rt.alloc();
    let mut shelf = shelf_of(alloc, DIAMOND)?;
    let whole = cert_with(alloc, &LINES, 0, LINES[0])?;
    shelf.with_file("c", &whole)?;
    let mut out = SureSink::new(alloc);
    let status = explain_over(alloc, "horizon=2", &mut shelf, &mut out)?;
    let got = (status, out.written());
    assert_eq!(rt; got, (Status::Done, EXPLAINED.as_bytes()));
    Ok(())
}

#[test]
fn a_certificate_without_its_end_is_not_explained(rt: HostRuntime) -> Result<(), Fail> {
    let alloc = rt.alloc();
    let mut shelf = shelf_of(alloc, DIAMOND)?;
    let short = cert_with(alloc, &LINES, 15, "")?;
    shelf.with_file("c", &short)?;
    let mut out = SureSink::new(alloc);
    let status = explain_over(alloc, "horizon=2", &mut shelf, &mut out)?;
    let told = b"not accepted,16,K8\n".as_slice();
    let got = (status, out.written());
    assert_eq!(rt; got, (Status::NotAccepted, told));
    Ok(())
}

#[test]
fn the_certificate_of_the_laptop_is_explained(rt: HostRuntime) -> Result<(), Fail> {
    let alloc = rt.alloc();
    let mut shelf = shelf_of(alloc, LAPTOP)?;
    let mut solved = SureSink::new(alloc);
    solve_within(alloc, "horizon=60", "ranges=1000", &mut shelf, &mut solved)?;
    let mut out = SureSink::new(alloc);
    let status = explain_over(alloc, "horizon=60", &mut shelf, &mut out)?;
    assert_eq!(rt; status, Status::Done);
    assert!(rt; out.written().starts_with(b"valid,optimal,261960\n"));
    Ok(())
}

#[test]
fn a_stage_behind_the_diamond_is_a_cluster_of_its_own(rt: HostRuntime) -> Result<(), Fail> {
    let alloc = rt.alloc();
    let files = [
        "stage\nA,2,,,,a,1\nB,0,,,,b,1\nC,0,,,,c,1\nD,0,,,0,d,1\nE,0,,,,d,1\n",
        DIAMOND[1],
        "supplier\nA,B\nA,C\nB,D\nC,D\nD,E\n",
    ];
    let mut shelf = shelf_of(alloc, files)?;
    let mut out = SureSink::new(alloc);
    let all = ["clusters", "stages=s", "tables=t", "arcs=a", "horizon=2"];
    let status = ask(alloc, &all, &mut shelf, &mut out)?;
    let told = b"clusters,2\nstage,cluster\nA,1\nB,1\nC,1\nD,1\nE,2\nbridge,D,E\n".as_slice();
    let got = (status, out.written());
    assert_eq!(rt; got, (Status::Done, told));
    Ok(())
}

// The words of a trial, its status, and the first and the last of what is printed.
struct Trial<'a> {
    words: [&'a str; 6],
    status: Status,
    first: &'a str,
    last: &'a str,
}

const TRIALS: [Trial<'static>; 3] = [
    Trial {
        words: [
            "trial",
            "seed=1",
            "stages=200",
            "extra=0",
            "horizon=100",
            "ranges=1000",
        ],
        status: Status::Done,
        first: "trial,1,200,199\noptimal,",
        last: "\nranges,1\nfilled,200\ncheck,valid\n",
    },
    Trial {
        words: [
            "trial",
            "seed=1",
            "stages=100",
            "extra=0",
            "horizon=40",
            "ranges=9757",
        ],
        status: Status::Refused,
        first: "refused,F24,words,0,0\n",
        last: "refused,F24,words,0,0\n",
    },
    Trial {
        words: [
            "trial",
            "seed=1",
            "stages=100",
            "extra=0",
            "horizon=40",
            "ranges=9756",
        ],
        status: Status::Done,
        first: "trial,1,100,99\noptimal,",
        last: "\nranges,1\nfilled,100\ncheck,valid\n",
    },
];

#[test]
fn a_trial_is_solved(rt: HostRuntime) -> Result<(), Fail> {
    let alloc = rt.alloc();
    for trial in &TRIALS {
        let mut shelf = SureShelf::new(alloc);
        let mut out = SureSink::new(alloc);
        let status = ask(alloc, &trial.words, &mut shelf, &mut out)?;
        assert_eq!(rt; status, trial.status);
        assert!(rt; out.written().starts_with(trial.first.as_bytes()));
        assert!(rt; out.written().ends_with(trial.last.as_bytes()));
    }
    Ok(())
}

#[test]
fn a_trial_is_the_same_at_each_run(rt: HostRuntime) -> Result<(), Fail> {
    let alloc = rt.alloc();
    let all = ["trial", "seed=2", "stages=60", "extra=20", "horizon=20"];
    let mut shelf = SureShelf::new(alloc);
    let mut one = SureSink::new(alloc);
    let status = ask(alloc, &all, &mut shelf, &mut one)?;
    assert!(rt; status == Status::Done || status == Status::Spent);
    let mut other = SureSink::new(alloc);
    ask(alloc, &all, &mut shelf, &mut other)?;
    assert_eq!(rt; one.written(), other.written());
    Ok(())
}

#[test]
fn the_certificate_of_a_trial_is_accepted(rt: HostRuntime) -> Result<(), Fail> {
    let alloc = rt.alloc();
    let numbers = TrialNumbers {
        seed: 1,
        stages: 200,
        extra: 0,
    };
    let Ok(Task::Solve(checked, forest, budget, _)) = trial_of(alloc, numbers, None, 100) else {
        return Err("a rule on the files of the trial fails".into());
    };
    let mut steps = Steps::<Counted>::new();
    let cert = cert_for(alloc, &checked.network, &forest, budget, &mut steps)?;
    let Ok(verdict) = check(alloc, &checked.network, &cert) else {
        return Err("a rule fails on the certificate".into());
    };
    assert_eq!(rt; verdict.outcome, Outcome::Optimal);
    Ok(())
}
