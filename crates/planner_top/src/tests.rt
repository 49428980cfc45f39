use super::*;
use gsm_outside::{Shelf, Sink, SureShelf, SureSink};
use std::alloc::Global;
use std::test::Fail;
use step_ledger::Steps;

// Whose steps a test counts.
struct Tested;

pub fn run_once<S: Shelf, K: Sink>(
    alloc: Global,
    words: &Words,
    shelf: &mut S,
    out: &mut K,
) -> Status {
    let mut steps = Steps::<Tested>::new();
    run(alloc, words, shelf, out, &mut steps)
}

pub fn words_of(alloc: Global, all: &[&str]) -> Result<Words, Fail> {
    let mut words = Words::new(alloc);
    for word in all {
        words.push(word)?;
    }
    Ok(words)
}

// Three files, a horizon, and what is to be printed with which status.
struct Case<'a> {
    name: &'a str,
    horizon: &'a str,
    stages: &'a str,
    tables: &'a str,
    arcs: &'a str,
    status: Status,
    text: &'a str,
}

const CASES: [Case<'static>; 9] = [
    Case {
        name: "plain",
        horizon: "horizon=10",
        stages: "stage,lead,supply,least,most,bound,unit\nA,5,,,2,t,1\n",
        tables: "table,x\nt,0,10,14,17,20,22\n",
        arcs: "",
        status: Status::Done,
        text: "optimal,17\nstage,inbound,outbound,time,stock,cost\nA,0,2,3,17,17\nranges,1\nfilled,1\n",
    },
    Case {
        name: "empty",
        horizon: "horizon=5",
        stages: "stage,lead,supply,least,most,bound,unit\n",
        tables: "table,x\n",
        arcs: "",
        status: Status::Refused,
        text: "refused,F8,stages,0,0\n",
    },
    Case {
        name: "infeasible",
        horizon: "horizon=10",
        stages: "stage,lead,supply,least,most,bound,unit\nA,9,,,0,t,1\n",
        tables: "table,x\nt,0,1,2,3\n",
        arcs: "",
        status: Status::Infeasible,
        text: "infeasible\nranges,1\nfilled,1\n",
    },
    Case {
        name: "a falling list",
        horizon: "horizon=2",
        stages: "stage,lead,supply,least,most,bound,unit\nA,0,,,0,t,1\n",
        tables: "table,x\nt,9,4,1\n",
        arcs: "",
        status: Status::Done,
        text: "optimal,1\nstage,inbound,outbound,time,stock,cost\nA,2,0,2,1,1\nranges,1\nfilled,1\n",
    },
    Case {
        name: "a cycle",
        horizon: "horizon=10",
        stages: "stage,lead,supply,least,most,bound,unit\nD,1,,,,t,1\nA,1,,,,t,1\nB,1,,,,t,1\nC,1,,,,t,1\n",
        tables: "table,x\nt,0,1,2,3\n",
        arcs: "supplier,customer,quantity\nA,B,1\nB,C,1\nC,A,1\nC,D,1\n",
        status: Status::Refused,
        text: "refused,F20,stages,3,1\n",
    },
    Case {
        name: "the usual producer",
        horizon: "horizon=8",
        stages: "\u{feff}stage,lead,supply,least,most,bound,unit\r\n\"Hub, north\", 7 ,,,6,flat,2",
        tables: "table,x\nflat,0,3,6,8\n",
        arcs: "",
        status: Status::Done,
        text: "optimal,6\nstage,inbound,outbound,time,stock,cost\n\"Hub, north\",0,6,1,3,6\nranges,1\nfilled,1\n",
    },
    Case {
        name: "two stages",
        horizon: "horizon=5",
        stages: "stage,lead,supply,least,most,bound,unit\nA,3,,,,a,1\nB,2,,,0,b,1\n",
        tables: "table,x\na,0,2,3,4\nb,0,5,7,9,10,12\n",
        arcs: "supplier,customer,quantity\nA,B,1\n",
        status: Status::Done,
        text: "optimal,11\nstage,inbound,outbound,time,stock,cost\nA,0,0,3,4,4\nB,0,0,2,7,7\nranges,1\nfilled,2\n",
    },
    Case {
        name: "a lower cost at the end",
        horizon: "horizon=5",
        stages: "stage,lead,supply,least,most,bound,unit\nA,3,,,,a,1\nB,2,,,0,b,1\n",
        tables: "table,x\na,0,2,3,4\nb,0,5,7,9,10,10\n",
        arcs: "supplier,customer,quantity\nA,B,1\n",
        status: Status::Done,
        text: "optimal,10\nstage,inbound,outbound,time,stock,cost\nA,0,3,0,0,0\nB,3,0,5,10,10\nranges,1\nfilled,2\n",
    },
    Case {
        name: "a bound by demand",
        horizon: "horizon=10",
        stages: "stage,lead,supply,least,most,bound,unit\nA,5,,,2,sum,1\n",
        tables: "table,x\nt,0,10,14,17,20,22\n",
        arcs: "",
        status: Status::Refused,
        text: "refused,F22,stages,2,6\n",
    },
];

// Runs the five words over three files, into the sink.
pub fn run_over(
    alloc: Global,
    horizon: &str,
    files: [&str; 3],
    out: &mut SureSink,
) -> Result<Status, Fail> {
    let words = words_of(alloc, &["solve", "stages=s", "tables=t", "arcs=a", horizon])?;
    let mut shelf = SureShelf::new(alloc);
    shelf.with_file("s", files[0].as_bytes())?;
    shelf.with_file("t", files[1].as_bytes())?;
    shelf.with_file("a", files[2].as_bytes())?;
    Ok(run_once(alloc, &words, &mut shelf, out))
}

#[test]
fn plain_files_are_solved_and_others_refused(rt: HostRuntime) -> Result<(), Fail> {
    let alloc = rt.alloc();
    for case in &CASES {
        let mut out = SureSink::new(alloc);
        let files = [case.stages, case.tables, case.arcs];
        let status = run_over(alloc, case.horizon, files, &mut out)?;
        let got = (status, out.written());
        assert_eq!(rt; got, (case.status, case.text.as_bytes()), "{}", case.name);
    }
    Ok(())
}

// The records of three files, and the refusal.
#[derive(Clone, Copy)]
struct Refusal<'a> {
    stages: &'a str,
    tables: &'a str,
    arcs: &'a str,
    text: &'a str,
}

const TABLE: &str = "t,0,10,14,17,20,22\n";

// A refusal of stages alone.
fn of_stages<'a>(stages: &'a str, text: &'a str) -> Refusal<'a> {
    Refusal {
        stages,
        tables: TABLE,
        arcs: "",
        text,
    }
}

#[test]
fn each_rule_on_files_is_printed_with_its_place(rt: HostRuntime) -> Result<(), Fail> {
    let alloc = rt.alloc();
    let cases = [
        of_stages("A,5.0,,,2,t,1\n", "refused,F5,stages,2,2\n"),
        of_stages("A,1001,,,2,t,1\n", "refused,F6,stages,2,2\n"),
        of_stages("A,5,,,2,t\n", "refused,F3,stages,2,0\n"),
        of_stages("A,5,,,2,t,1\nA,5,,,2,t,1\n", "refused,F9,stages,3,1\n"),
        of_stages("A,5,11,,2,t,1\n", "refused,F11,stages,2,3\n"),
        of_stages("A,5,,3,2,t,1\n", "refused,F10,stages,2,4\n"),
        of_stages("A,5,,,2,normal:x,1\n", "refused,F17,stages,2,6\n"),
        of_stages("A,5,,,2,u,1\n", "refused,F21,stages,2,6\n"),
        of_stages("A,5,,,2,sum,1\n", "refused,F22,stages,2,6\n"),
        of_stages("A,5,,,2,normal:1000000000,1\n", "refused,F23,stages,2,6\n"),
        of_stages("A,5,,,2,sum,1\nB,5,,,2,u,1\n", "refused,F21,stages,3,6\n"),
        Refusal {
            stages: "A,5,,,2,t,1\n",
            tables: "t,0,10,14,17,20,22\nsum,1\n",
            arcs: "",
            text: "refused,F12,tables,3,1\n",
        },
        Refusal {
            stages: "A,5,,,2,t,1\nB,5,,,2,u,1\n",
            tables: TABLE,
            arcs: "A,B,1\nA,A,1\nA,B,1\nA,Z,1\n",
            text: "refused,F15,arcs,3,2\n",
        },
    ];
    for case in &cases {
        let stages = format!(in alloc; "stage,lead,supply,least,most,bound,unit\n{}", case.stages)?;
        let tables = format!(in alloc; "table,x\n{}", case.tables)?;
        let arcs = format!(in alloc; "supplier,customer,quantity\n{}", case.arcs)?;
        let files = [stages.as_str(), tables.as_str(), arcs.as_str()];
        let mut out = SureSink::new(alloc);
        let status = run_over(alloc, "horizon=10", files, &mut out)?;
        let got = (status, out.written());
        assert_eq!(rt;
            got,
            (Status::Refused, case.text.as_bytes()),
            "{}",
            case.stages
        );
    }
    Ok(())
}

#[test]
fn a_rule_on_words_is_printed_with_its_place(rt: HostRuntime) -> Result<(), Fail> {
    let alloc = rt.alloc();
    let words = words_of(alloc, &["solve", "stages=s", "script=c"])?;
    let mut shelf = SureShelf::new(alloc);
    let mut out = SureSink::new(alloc);
    let status = run_once(alloc, &words, &mut shelf, &mut out);
    let got = (status, out.written());
    assert_eq!(rt; got, (Status::Words, b"words,W4,3\n".as_slice()));
    Ok(())
}

// A thousand stages that all cost as much as a stage can.
fn costly_stages(alloc: Global) -> Result<String, Fail> {
    let mut stages = String::from_str(alloc, "stage,lead,supply,least,most,bound,unit\n")?;
    for k in 1..1001 {
        stages.push_str(format!(in alloc; "s{k},0,,,,big,1000000\n")?.as_str())?;
    }
    Ok(stages)
}

#[test]
fn the_largest_sum_is_still_exact(rt: HostRuntime) -> Result<(), Fail> {
    let alloc = rt.alloc();
    let stages = costly_stages(alloc)?;
    let mut out = SureSink::new(alloc);
    let files = [stages.as_str(), "table,x\nbig,1000000000\n", ""];
    let status = run_over(alloc, "horizon=0", files, &mut out)?;
    assert_eq!(rt; status, Status::Done);
    assert!(rt; out.written().starts_with(b"optimal,1000000000000000000\n"));
    assert!(rt;
        out.written().ends_with(b"s1000,0,0,0,1000000000,1000000000000000\nranges,1\nfilled,1000\n")
    );
    Ok(())
}
