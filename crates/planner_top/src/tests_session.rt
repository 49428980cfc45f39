use super::*;
use crate::tests::{run_once, words_of};
use gsm_outside::{SureShelf, SureSink};
use std::alloc::Global;
use std::test::Fail;

// Three stages in a line, under a script.
fn line_of_stages(alloc: Global, script: &[u8]) -> Result<SureShelf, Fail> {
    let mut shelf = SureShelf::new(alloc);
    shelf.with_file(
        "s",
        b"stage,lead,supply,least,most,bound,unit\nA,1,,,,t,1\nB,1,,,,t,2\nC,2,,,0,t,3\n",
    )?;
    shelf.with_file("t", b"table,x\nt,0,3,5,6,7\n")?;
    shelf.with_file("a", b"supplier,customer,quantity\nA,B\nB,C\n")?;
    shelf.with_file("e", script)?;
    Ok(shelf)
}

// A script, and what is to be printed.
struct Case<'a> {
    script: &'a str,
    text: &'a str,
}

const CASES: [Case<'static>; 3] = [
    Case {
        script: "solve\nset-stage,C,lead,1\nsolve\nset-stage,A,lead,0\nsolve\nsolve\n",
        text: "solve,1,optimal,21,1,3\nedit,2,done\nsolve,3,optimal,18,1,3\nedit,4,done\nsolve,5,optimal,15,1,3\nsolve,6,optimal,15,1,3\nend,6\n",
    },
    Case {
        script: "solve\nadd-arc,C,A\nsolve\n",
        text: "solve,1,optimal,21,1,3\nedit,2,F20,stages,2,1\nsolve,3,optimal,21,1,3\nend,3\n",
    },
    Case {
        script: "",
        text: "end,0\n",
    },
];

fn session_over(alloc: Global, script: &str, out: &mut SureSink) -> Result<Status, Fail> {
    let mut shelf = line_of_stages(alloc, script.as_bytes())?;
    let words = words_of(
        alloc,
        &[
            "session",
            "stages=s",
            "tables=t",
            "arcs=a",
            "horizon=4",
            "script=e",
        ],
    )?;
    Ok(run_once(alloc, &words, &mut shelf, out))
}

#[test]
fn a_session_answers_on_the_files_as_they_are(rt: HostRuntime) -> Result<(), Fail> {
    let alloc = rt.alloc();
    for case in &CASES {
        let mut out = SureSink::new(alloc);
        let status = session_over(alloc, case.script, &mut out)?;
        let got = (status, out.written());
        assert_eq!(rt; got, (Status::Done, case.text.as_bytes()));
    }
    Ok(())
}

#[test]
fn each_answer_of_a_session_has_its_certificate(rt: HostRuntime) -> Result<(), Fail> {
    let alloc = rt.alloc();
    let mut shelf = line_of_stages(alloc, b"set-stage,C,lead,2\nsolve\nsolve\n")?;
    let words = words_of(
        alloc,
        &[
            "session",
            "stages=s",
            "tables=t",
            "arcs=a",
            "horizon=4",
            "script=e",
            "cert=c",
        ],
    )?;
    let mut out = SureSink::new(alloc);
    let status = run_once(alloc, &words, &mut shelf, &mut out);
    assert_eq!(rt; status, Status::Done);
    for cert in ["cert=c-1", "cert=c-2"] {
        let words = words_of(
            alloc,
            &["check", "stages=s", "tables=t", "arcs=a", "horizon=4", cert],
        )?;
        let mut out = SureSink::new(alloc);
        let status = run_once(alloc, &words, &mut shelf, &mut out);
        let text = b"valid,optimal,21\n".as_slice();
        assert_eq!(rt; (status, out.written()), (Status::Done, text));
    }
    assert_eq!(rt; shelf.bytes_of("c"), None);
    Ok(())
}
