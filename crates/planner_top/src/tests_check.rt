use super::*;
use crate::tests::{run_once, words_of};
use gsm_outside::{SureShelf, SureSink};
use std::alloc::Global;
use std::test::Fail;

const STAGES: &str = "stage,lead,supply,least,most,bound,unit\nA,3,,,,a,1\nB,2,,,0,b,1\n";

const TABLES: &str = "table,x\na,0,2,3,4\nb,0,5,7,9,10,12\n";

const ARCS: &str = "supplier,customer,quantity\nA,B,1\n";

// B's costs at each inbound time, then A's least sum with them.
const LINES: [&str; 5] = [
    "[\"gsm-cert\",1,5,2,1000]\n",
    "[\"t\",1,1,0,0,0,[],[7,9,10,12,4611686018427387904,4611686018427387904]]\n",
    "[\"t\",0,2,0,5,0,[0],[11]]\n",
    "[\"n\",[1],[[0,0],[0,0]]]\n",
    "[\"e\",0,11,[[0,0],[0,0]]]\n",
];

// A line of the two stages' certificate that is replaced, with the status and what is printed.
struct Checked<'a> {
    place: usize,
    line: &'a str,
    status: Status,
    text: &'a str,
}

const CERTIFICATES: [Checked<'static>; 6] = [
    Checked {
        place: 0,
        line: "[\"gsm-cert\",1,5,2,1000]\n",
        status: Status::Done,
        text: "valid,optimal,11\n",
    },
    Checked {
        place: 4,
        line: "",
        status: Status::NotAccepted,
        text: "not accepted,5,K8\n",
    },
    Checked {
        place: 2,
        line: "[\"t\",0,2,0,5,0,[0],[12]]\n",
        status: Status::NotAccepted,
        text: "not accepted,3,K13\n",
    },
    Checked {
        place: 4,
        line: "[\"s\",0,0,1]\n",
        status: Status::NotAccepted,
        text: "not accepted,5,K20\n",
    },
    Checked {
        place: 4,
        line: "[\"e\",0,12,[[0,0],[0,0]]]\n",
        status: Status::NotAccepted,
        text: "not accepted,5,K23\n",
    },
    Checked {
        place: 0,
        line: "gsm-cert\n",
        status: Status::NotAccepted,
        text: "not accepted,1,K2\n",
    },
];

// A shelf with the files of the two stages, or of one that has no plan.
fn shelf_with(alloc: Global, stages: &str) -> Result<SureShelf, Fail> {
    let mut shelf = SureShelf::new(alloc);
    shelf.with_file("s", stages.as_bytes())?;
    shelf.with_file("t", TABLES.as_bytes())?;
    shelf.with_file("a", b"")?;
    Ok(shelf)
}

// Runs a command with a certificate, into the sink.
fn run_cert(
    alloc: Global,
    command: &str,
    shelf: &mut SureShelf,
    out: &mut SureSink,
) -> Result<Status, Fail> {
    let words = words_of(
        alloc,
        &[
            command,
            "stages=s",
            "tables=t",
            "arcs=a",
            "horizon=5",
            "cert=c",
        ],
    )?;
    Ok(run_once(alloc, &words, shelf, out))
}

// Checks a certificate of the two stages, into the sink.
fn check_over(alloc: Global, cert: &[u8], out: &mut SureSink) -> Result<Status, Fail> {
    let mut shelf = shelf_with(alloc, STAGES)?;
    shelf.with_file("a", ARCS.as_bytes())?;
    shelf.with_file("c", cert)?;
    run_cert(alloc, "check", &mut shelf, out)
}

// Lines of a certificate, with one of them replaced.
pub fn cert_with(alloc: Global, lines: &[&str], place: usize, line: &str) -> Result<Vec<u8>, Fail> {
    let mut cert = Vec::new(alloc);
    for (k, good) in lines.iter().enumerate() {
        let text = if k == place { line } else { *good };
        cert.extend_from_slice(text.as_bytes())?;
    }
    Ok(cert)
}

#[test]
fn a_certificate_of_two_stages_is_checked(rt: HostRuntime) -> Result<(), Fail> {
    let alloc = rt.alloc();
    for case in &CERTIFICATES {
        let cert = cert_with(alloc, &LINES, case.place, case.line)?;
        let mut out = SureSink::new(alloc);
        let status = check_over(alloc, &cert, &mut out)?;
        let got = (status, out.written());
        assert_eq!(rt; got, (case.status, case.text.as_bytes()));
    }
    Ok(())
}

#[test]
fn a_certificate_that_is_written_is_accepted(rt: HostRuntime) -> Result<(), Fail> {
    let alloc = rt.alloc();
    let mut shelf = shelf_with(alloc, STAGES)?;
    shelf.with_file("a", ARCS.as_bytes())?;
    let mut out = SureSink::new(alloc);
    let status = run_cert(alloc, "solve", &mut shelf, &mut out)?;
    assert_eq!(rt; status, Status::Done);
    assert!(rt; out.written().starts_with(b"optimal,11\n"));
    let whole = cert_with(alloc, &LINES, 0, LINES[0])?;
    assert_eq!(rt;
        shelf.bytes_of("c").ok_or("no certificate")?,
        whole.as_slice()
    );
    assert_eq!(rt; shelf.bytes_of("s").ok_or("no stages")?, STAGES.as_bytes());
    let mut checked = SureSink::new(alloc);
    let status = run_cert(alloc, "check", &mut shelf, &mut checked)?;
    let got = (status, checked.written());
    assert_eq!(rt; got, (Status::Done, b"valid,optimal,11\n".as_slice()));
    Ok(())
}

#[test]
fn a_certificate_shows_that_no_plan_is_feasible(rt: HostRuntime) -> Result<(), Fail> {
    let alloc = rt.alloc();
    let stages = "stage,lead,supply,least,most,bound,unit\nA,5,,,0,a,1\n";
    let mut shelf = shelf_with(alloc, stages)?;
    let mut out = SureSink::new(alloc);
    let status = run_cert(alloc, "solve", &mut shelf, &mut out)?;
    assert_eq!(rt; status, Status::Infeasible);
    let mut checked = SureSink::new(alloc);
    let status = run_cert(alloc, "check", &mut shelf, &mut checked)?;
    let got = (status, checked.written());
    assert_eq!(rt; got, (Status::Done, b"valid,infeasible\n".as_slice()));
    Ok(())
}
