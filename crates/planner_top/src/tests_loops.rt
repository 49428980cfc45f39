use super::*;
use crate::tests::{run_once, words_of};
use crate::tests_check::cert_with;
use gsm_outside::{SureShelf, SureSink};
use std::alloc::Global;
use std::test::Fail;

// A supplies B and C, which both supply D: the forest drops the arc from C to D.
pub const DIAMOND: [&str; 3] = [
    "stage,lead,supply,least,most,bound,unit\nA,2,,,,a,1\nB,0,,,,b,1\nC,0,,,,c,1\nD,0,,,0,d,1\n",
    "table,x\na,0,3,7\nb,0,6,6\nc,0,1,1\nd,0,8,8\n",
    "supplier,customer,quantity\nA,B,1\nA,C,1\nB,D,1\nC,D,1\n",
];

// Its certificate: a node, the split of C at time 0, and the two nodes of the split.
pub const LINES: [&str; 16] = [
    "[\"gsm-cert\",1,2,4,1000]\n",
    "[\"t\",3,1,0,0,0,[],[0,8,8]]\n",
    "[\"t\",2,1,0,2,0,[],[0,0,0]]\n",
    "[\"t\",1,1,0,2,0,[0],[0,6,6]]\n",
    "[\"t\",0,2,0,2,0,[2,1],[6]]\n",
    "[\"n\",[3],[[0,2,2,0],[2,0,2,0]]]\n",
    "[\"s\",0,2,3]\n",
    "[\"t\",2,1,0,0,0,[],[0,1,1]]\n",
    "[\"t\",0,2,0,2,0,[2,4],[7]]\n",
    "[\"n\",[5],[[0,2,2,0],[2,0,0,0]]]\n",
    "[\"t\",3,1,0,0,1,[],[8,8]]\n",
    "[\"t\",2,1,1,2,0,[],[4611686018427387904,0,0]]\n",
    "[\"t\",1,1,0,2,0,[6],[8,8,8]]\n",
    "[\"t\",0,2,0,2,0,[8,7],[8]]\n",
    "[\"n\",[9],[[0,2,2,2],[2,2,2,0]]]\n",
    "[\"e\",0,7,[[0,2,2,0],[2,0,0,0]]]\n",
];

// The second node's relaxed plan may also be this one, which costs as little.
const OTHER: &str = "[\"n\",[5],[[0,0,0,0],[0,0,0,0]]]\n";

const SOLVED: &str =
    "optimal,7\nstage,inbound,outbound,time,stock,cost\nA,0,2,0,0,0\nB,2,0,2,6,6\nC,2,0,2,1,1\nD,0,0,0,0,0\nranges,3\nfilled,10\n";

const SPENT: &str =
    "spent,6,7\nstage,inbound,outbound,time,stock,cost\nA,0,2,0,0,0\nB,2,0,2,6,6\nC,2,0,2,1,1\nD,0,0,0,0,0\nranges,1\nfilled,4\n";

// A budget of ranges, what is printed with which status, and what is printed of the certificate.
const BUDGETS: [(&str, Status, &str, &str); 3] = [
    ("ranges=1000", Status::Done, SOLVED, "valid,optimal,7\n"),
    ("ranges=3", Status::Done, SOLVED, "valid,optimal,7\n"),
    ("ranges=2", Status::Spent, SPENT, "valid,spent,6,7\n"),
];

// A line of the certificate that is replaced, and what is printed.
const FORGED: [(usize, &str, &str); 5] = [
    (6, "", "not accepted,9,K7\n"),
    (3, "[\"t\",1,1,0,2,0,[0],[0,7,6]]\n", "not accepted,4,K13\n"),
    (15, "", "not accepted,16,K8\n"),
    (6, "[\"s\",1,2,3]\n", "not accepted,7,K19\n"),
    (6, "[\"s\",0,0,1]\n", "not accepted,7,K22\n"),
];

// The files of a network.
pub fn shelf_of(alloc: Global, files: [&str; 3]) -> Result<SureShelf, Fail> {
    let mut shelf = SureShelf::new(alloc);
    shelf.with_file("s", files[0].as_bytes())?;
    shelf.with_file("t", files[1].as_bytes())?;
    shelf.with_file("a", files[2].as_bytes())?;
    Ok(shelf)
}

// Solves a network within a budget and writes its certificate, into the sink.
pub fn solve_within(
    alloc: Global,
    horizon: &str,
    ranges: &str,
    shelf: &mut SureShelf,
    out: &mut SureSink,
) -> Result<Status, Fail> {
    let words = words_of(
        alloc,
        &[
            "solve", "stages=s", "tables=t", "arcs=a", horizon, ranges, "cert=c",
        ],
    )?;
    Ok(run_once(alloc, &words, shelf, out))
}

// Checks the certificate of a network, into the sink.
fn check_written(
    alloc: Global,
    horizon: &str,
    shelf: &mut SureShelf,
    out: &mut SureSink,
) -> Result<Status, Fail> {
    let words = words_of(
        alloc,
        &["check", "stages=s", "tables=t", "arcs=a", horizon, "cert=c"],
    )?;
    Ok(run_once(alloc, &words, shelf, out))
}

// Solves a network within a budget and checks the certificate that was written, each into a sink.
fn solve_and_check(
    alloc: Global,
    files: [&str; 3],
    horizon: &str,
    ranges: &str,
    solved: &mut SureSink,
    checked: &mut SureSink,
) -> Result<(Status, Status), Fail> {
    let mut shelf = shelf_of(alloc, files)?;
    let status = solve_within(alloc, horizon, ranges, &mut shelf, solved)?;
    Ok((status, check_written(alloc, horizon, &mut shelf, checked)?))
}

// Checks these bytes as a certificate of the diamond, into the sink.
fn check_bytes_of(alloc: Global, cert: &[u8], out: &mut SureSink) -> Result<Status, Fail> {
    let mut shelf = shelf_of(alloc, DIAMOND)?;
    shelf.with_file("c", cert)?;
    check_written(alloc, "horizon=2", &mut shelf, out)
}

#[test]
fn the_certificate_of_a_search_is_accepted(rt: HostRuntime) -> Result<(), Fail> {
    let alloc = rt.alloc();
    for (ranges, status, text, told) in BUDGETS {
        let mut solved = SureSink::new(alloc);
        let mut checked = SureSink::new(alloc);
        let got = solve_and_check(
            alloc,
            DIAMOND,
            "horizon=2",
            ranges,
            &mut solved,
            &mut checked,
        )?;
        assert_eq!(rt; got, (status, Status::Done), "{}", ranges);
        assert_eq!(rt; solved.written(), text.as_bytes(), "{}", ranges);
        assert_eq!(rt; checked.written(), told.as_bytes(), "{}", ranges);
    }
    Ok(())
}

#[test]
fn the_certificate_of_the_diamond_has_a_split(rt: HostRuntime) -> Result<(), Fail> {
    let alloc = rt.alloc();
    let mut shelf = shelf_of(alloc, DIAMOND)?;
    let mut out = SureSink::new(alloc);
    solve_within(alloc, "horizon=2", "ranges=1000", &mut shelf, &mut out)?;
    let written = shelf.bytes_of("c").ok_or("no certificate")?;
    let one = cert_with(alloc, &LINES, 9, LINES[9])?;
    let other = cert_with(alloc, &LINES, 9, OTHER)?;
    assert!(rt; written == one.as_slice() || written == other.as_slice());
    Ok(())
}

#[test]
fn a_forged_certificate_of_the_diamond_is_not_accepted(rt: HostRuntime) -> Result<(), Fail> {
    let alloc = rt.alloc();
    for (place, line, text) in FORGED {
        let cert = cert_with(alloc, &LINES, place, line)?;
        let mut out = SureSink::new(alloc);
        let status = check_bytes_of(alloc, &cert, &mut out)?;
        let got = (status, out.written());
        assert_eq!(rt; got, (Status::NotAccepted, text.as_bytes()));
    }
    Ok(())
}

// Parts that are built, sold in two regions and kept as spares: Board and Battery supply both Build and Spares.
pub const LAPTOP: [&str; 3] = [
    "stage,lead,supply,least,most,bound,unit\nPanel,30,,,,pool,40\nBoard,15,,,,pool,60\nChip,45,,,,pool,25\nBattery,20,,,,pool,15\nBuild,5,,,,pool,200\nEast,3,,,0,normal:120,260\nWest,6,,,2,normal:90,260\nSpares,4,,,10,normal:12,70\n",
    "table,x\n",
    "supplier,customer,quantity\nPanel,Build,1\nChip,Board,1\nBoard,Build,1\nBattery,Build,1\nBuild,East,1\nBuild,West,1\nBoard,Spares,1\nBattery,Spares,1\n",
];

#[test]
fn the_certificate_of_the_laptop_is_accepted(rt: HostRuntime) -> Result<(), Fail> {
    let alloc = rt.alloc();
    let mut solved = SureSink::new(alloc);
    let mut checked = SureSink::new(alloc);
    solve_and_check(
        alloc,
        LAPTOP,
        "horizon=60",
        "ranges=1000",
        &mut solved,
        &mut checked,
    )?;
    assert!(rt; solved.written().starts_with(b"optimal,261960\n"));
    assert_eq!(rt; checked.written(), b"valid,optimal,261960\n".as_slice());
    Ok(())
}

// A hundred stages without arcs, each with this bound.
fn hundred_stages(alloc: Global, bound: &str) -> Result<String, Fail> {
    let mut stages = String::from_str(alloc, "stage,lead,supply,least,most,bound,unit\n")?;
    for k in 1..101 {
        stages.push_str(format!(in alloc; "s{k},0,,,,{bound},1\n")?.as_str())?;
    }
    Ok(stages)
}

#[test]
fn a_budget_is_refused_behind_the_network(rt: HostRuntime) -> Result<(), Fail> {
    let alloc = rt.alloc();
    let cases = [
        (
            "f",
            "ranges=9757",
            Status::Refused,
            "refused,F24,words,0,0\n",
        ),
        ("f", "ranges=9756", Status::Done, "optimal,0\n"),
        (
            "normal:1000000000",
            "ranges=9757",
            Status::Refused,
            "refused,F23,stages,2,6\n",
        ),
    ];
    for (bound, word, status, first) in cases {
        let stages = hundred_stages(alloc, bound)?;
        let mut out = SureSink::new(alloc);
        let files = [stages.as_str(), "table,x\nf,0,3\n", ""];
        let mut shelf = shelf_of(alloc, files)?;
        let words = words_of(
            alloc,
            &[
                "solve",
                "stages=s",
                "tables=t",
                "arcs=a",
                "horizon=40",
                word,
            ],
        )?;
        let got = run_once(alloc, &words, &mut shelf, &mut out);
        assert_eq!(rt; got, status, "{}", word);
        assert!(rt; out.written().starts_with(first.as_bytes()), "{}", word);
    }
    Ok(())
}
