// The certificate of a diamond of four stages, of whose arcs the last is dropped: the split of its node makes two more.
use crate::{CheckFault, check, check_bytes};
use bound_cert::{CertFault, CertReader, FeedStop};
use service_model::cert_rules::{
    AFTER_END, BUDGET, CHILD, CHILD_ARC, FITS, LOCAL, NETWORK, NO_END, NOT_JSON, PLACE, PLAN,
    RELAXED, ROOT, SHAPE, SPLIT_ARC, SPLIT_LATE, SPLIT_NODE, SPLIT_PLAN, STAGE_TWICE, TABLE,
    VERDICT,
};
use service_model::{Cert, Collector, List, Network, NewFault, Outcome, Stage, SupplyArc, Verdict};
use std::alloc::{AllocError, Global};
use std::test::Fail;

const LINES: [&str; 16] = [
    "[\"gsm-cert\",1,2,4,1000]",
    "[\"t\",3,1,0,0,0,[],[0,8,8]]",
    "[\"t\",2,1,0,2,0,[],[0,0,0]]",
    "[\"t\",1,1,0,2,0,[0],[0,6,6]]",
    "[\"t\",0,2,0,2,0,[2,1],[6]]",
    NODE,
    SPLIT,
    "[\"t\",2,1,0,0,0,[],[0,1,1]]",
    "[\"t\",0,2,0,2,0,[2,4],[7]]",
    "[\"n\",[5],[[0,2,2,0],[2,0,0,0]]]",
    "[\"t\",3,1,0,0,1,[],[8,8]]",
    "[\"t\",2,1,1,2,0,[],[4611686018427387904,0,0]]",
    "[\"t\",1,1,0,2,0,[6],[8,8,8]]",
    "[\"t\",0,2,0,2,0,[8,7],[8]]",
    "[\"n\",[9],[[0,2,2,2],[2,2,2,0]]]",
    END,
];

const NODE: &str = "[\"n\",[3],[[0,2,2,0],[2,0,2,0]]]";

const SPLIT: &str = "[\"s\",0,2,3]";

const END: &str = "[\"e\",0,7,[[0,2,2,0],[2,0,0,0]]]";

// No bytes here are more.
const LONGEST: usize = 100_000;

// The first line that is changed, how many go, what stands in their place, the line at which a rule then fails, and the rule.
type Forgery = (usize, usize, &'static [&'static str], u64, u8);

const FORGERIES: [Forgery; 26] = [
    (1, 16, &[], 1, NO_END),
    (1, 1, &["[\"gsm-cert\",1,3,4,1000]"], 1, NETWORK),
    (1, 1, &["[\"gsm-cert\",1,2,4,2]"], 15, BUDGET),
    (2, 1, &["[\"t\",3,1,0,0,0,[],[0,8]]"], 2, TABLE),
    (3, 1, &["x"], 3, NOT_JSON),
    (3, 1, &["{}"], 3, SHAPE),
    (4, 1, &["[\"t\",1,1,0,2,0,[2],[0,6,6]]"], 4, CHILD),
    (4, 1, &["[\"t\",1,1,0,2,0,[1],[0,6,6]]"], 4, CHILD_ARC),
    (4, 1, &["[\"t\",1,1,0,2,0,[0],[0,7,6]]"], 4, LOCAL),
    (5, 1, &["[\"t\",0,2,0,2,0,[2,1],[7]]"], 5, LOCAL),
    (5, 1, &["[\"t\",0,2,0,2,0,[2,1],[5]]"], 7, SPLIT_PLAN),
    (6, 2, &[SPLIT, NODE], 6, PLACE),
    (6, 1, &["[\"n\",[2],[[0,2,2,0],[2,0,2,0]]]"], 6, ROOT),
    (
        6,
        1,
        &["[\"n\",[3,3],[[0,2,2,0],[2,0,2,0]]]"],
        6,
        STAGE_TWICE,
    ),
    (6, 1, &["[\"n\",[3],[[0],[2,0,2,0]]]"], 6, RELAXED),
    (6, 1, &["[\"n\",[3],null]"], 7, SPLIT_PLAN),
    (7, 1, &[], 9, PLACE),
    (7, 1, &["[\"s\",1,2,3]"], 7, SPLIT_NODE),
    (7, 1, &["[\"s\",0,1,3]"], 7, SPLIT_ARC),
    (10, 1, &["[\"n\",[3],[[0,2,2,0],[2,0,0,0]]]"], 16, VERDICT),
    (15, 1, &["[\"n\",[5],[[0,2,2,2],[2,2,2,0]]]"], 15, FITS),
    (16, 1, &[], 16, NO_END),
    (16, 1, &["[\"s\",1,0,1]"], 16, SPLIT_LATE),
    (16, 1, &["[\"e\",0,8,[[0,2,2,0],[2,0,0,0]]]"], 16, VERDICT),
    (16, 1, &["[\"e\",0,7,[[0,2,2,0],[2,0,2,0]]]"], 16, PLAN),
    (16, 1, &[END, END], 17, AFTER_END),
];

fn arc(supplier: u32, customer: u32) -> SupplyArc {
    SupplyArc {
        supplier,
        customer,
        transit: 0,
    }
}

fn network(alloc: Global) -> Result<Network, NewFault> {
    let rows: [(u16, u16, &[u64]); 4] = [
        (2, 2, &[0, 3, 7]),
        (0, 2, &[0, 6, 6]),
        (0, 2, &[0, 1, 1]),
        (0, 0, &[0, 8, 8]),
    ];
    let mut stages = List::new(alloc);
    for (lead, most, cost) in rows {
        stages.push(Stage {
            lead,
            supply: 0,
            least: 0,
            most,
            cost: List::copied(alloc, cost)?,
        })?;
    }
    let arcs = List::copied(alloc, &[arc(0, 1), arc(0, 2), arc(1, 3), arc(2, 3)])?;
    if stages.len() >= 1 << 32 || arcs.len() >= 1 << 32 {
        return Err(NewFault::NoMemory);
    }
    Network::new(alloc, 2, stages, arcs)
}

// The lines of a forgery.
fn forged(alloc: Global, forgery: Forgery) -> Result<Vec<&'static str>, AllocError> {
    let (first, gone, instead, _, _) = forgery;
    let from = first.saturating_sub(1).min(LINES.len());
    let rest = from.saturating_add(gone).min(LINES.len());
    let mut lines = Vec::from_slice(alloc, &LINES.as_slice()[..from])?;
    lines.extend_from_slice(instead)?;
    lines.extend_from_slice(&LINES.as_slice()[rest..])?;
    Ok(lines)
}

// Lines, each with its line feed.
fn joined(alloc: Global, lines: &[&str]) -> Result<Vec<u8>, AllocError> {
    let mut bytes = Vec::new(alloc);
    for line in lines {
        bytes.extend_from_slice(line.as_bytes())?;
        bytes.push(b'\n')?;
    }
    Ok(bytes)
}

// The outcome and the bound of the lines' verdict, or their fault.
fn answer(alloc: Global, lines: &[&str]) -> Result<Result<(Outcome, u64), CheckFault>, Fail> {
    let network = network(alloc)?;
    let bytes = joined(alloc, lines)?;
    if bytes.len() > LONGEST {
        return Ok(Err(CheckFault::NoMemory));
    }
    Ok(told(check_bytes(alloc, &network, &bytes)))
}

fn told(checked: Result<Verdict, CheckFault>) -> Result<(Outcome, u64), CheckFault> {
    match checked {
        Ok(verdict) => Ok((verdict.outcome, verdict.bound)),
        Err(fault) => Err(fault),
    }
}

// The certificate of the lines.
fn read(alloc: Global) -> Result<Option<Cert>, FeedStop> {
    let bytes = joined(alloc, &LINES)?;
    if bytes.len() > LONGEST {
        return Ok(None);
    }
    let mut collector = Collector::new(alloc);
    let mut reader = CertReader::new(alloc);
    reader.feed(&bytes, &mut collector, &mut ())?;
    reader.finish(&mut collector, &mut ())?;
    Ok(collector.cert())
}

fn fault(line: u64, rule: u8) -> Result<(Outcome, u64), CheckFault> {
    Err(CheckFault::Fault(CertFault { line, rule }))
}

#[test]
fn a_good_certificate_has_its_verdict(rt: HostRuntime) -> Result<(), Fail> {
    assert_eq!(rt; answer(rt.alloc(), &LINES)?, Ok((Outcome::Optimal, 7)));
    Ok(())
}

#[test]
fn the_first_rule_that_a_forged_line_breaks_is_named(rt: HostRuntime) -> Result<(), Fail> {
    let alloc = rt.alloc();
    for forgery in FORGERIES {
        let lines = forged(alloc, forgery)?;
        let (first, _, _, line, rule) = forgery;
        assert_eq!(rt; answer(alloc, &lines)?, fault(line, rule), "at {first}");
    }
    Ok(())
}

#[test]
fn a_certificate_in_memory_is_checked_by_its_lines(rt: HostRuntime) -> Result<(), Fail> {
    let alloc = rt.alloc();
    let network = network(alloc)?;
    let mut cert = read(alloc)?.ok_or("no certificate")?;
    assert_eq!(rt;
        told(check(alloc, &network, &cert)),
        Ok((Outcome::Optimal, 7))
    );
    cert.nodes = List::new(alloc);
    assert_eq!(rt;
        told(check(alloc, &network, &cert)),
        fault(12, PLACE),
        "the split comes too early"
    );
    Ok(())
}
