ghost use Rattle.std.specs.Prelude.{◌<◌};

use crate::{CertFault, CertReader, FeedStop, items_of, line_of};
use service_model::cert_rules::{
    AFTER_END, HEAD, LONG_LINE, NO_END, NOT_JSON, PLACE, SHAPE, VERSION,
};
use service_model::{Collector, Item, TakeStop, Taker};
use std::alloc::{AllocError, Global};
use std::test::Fail;

// The certificate of a diamond of four stages, of whose arcs the last is dropped: three nodes and a split.
const DIAMOND: [&str; 16] = [
    "[\"gsm-cert\",1,2,4,1000]",
    "[\"t\",3,1,0,0,0,[],[0,8,8]]",
    "[\"t\",2,1,0,2,0,[],[0,0,0]]",
    "[\"t\",1,1,0,2,0,[0],[0,6,6]]",
    "[\"t\",0,2,0,2,0,[2,1],[6]]",
    "[\"n\",[3],[[0,2,2,0],[2,0,2,0]]]",
    "[\"s\",0,2,3]",
    "[\"t\",2,1,0,0,0,[],[0,1,1]]",
    "[\"t\",0,2,0,2,0,[2,4],[7]]",
    "[\"n\",[5],[[0,2,2,0],[2,0,0,0]]]",
    "[\"t\",3,1,0,0,1,[],[8,8]]",
    "[\"t\",2,1,1,2,0,[],[4611686018427387904,0,0]]",
    "[\"t\",1,1,0,2,0,[6],[8,8,8]]",
    "[\"t\",0,2,0,2,0,[8,7],[8]]",
    "[\"n\",[9],[[0,2,2,2],[2,2,2,0]]]",
    "[\"e\",0,7,[[0,2,2,0],[2,0,0,0]]]",
];

// No bytes here are more.
const LONGEST: usize = 100_000;

// A line of the diamond's certificate that is another, and the rule that fails on it.
type Damage = (usize, &'static str, u8);

const DAMAGES: [Damage; 14] = [
    (1, "[\"gsm-cert\",2,2,4,1000]", VERSION),
    (1, "[\"gsm-cert\",1,2,4,0]", SHAPE),
    (1, "[\"t\",3,1,0,0,0,[],[0,8,8]]", HEAD),
    (2, "[\"gsm-cert\",1,2,4,1000]", HEAD),
    (2, "[\"t\",3,3,0,0,0,[],[0,8,8]]", SHAPE),
    (3, "[\"t\",2,1,0,2,0,[],[0,0,0]", NOT_JSON),
    (4, "[\"u\",1,1,0,2,0,[0],[0,6,6]]", SHAPE),
    (5, "[\"t\",0,2,0,2,0,[2,1],[-6]]", SHAPE),
    (6, "[\"s\",0,2,3]", PLACE),
    (7, "[\"s\",0,2,3.0]", SHAPE),
    (10, "", NOT_JSON),
    (12, "[\"t\",2,1,1,2,0,[],[4611686018427387905,0,0]]", SHAPE),
    (14, "[\"t\",0,2,0,1001,0,[8,7],[8]]", SHAPE),
    (16, "[\"e\",0,7,1e999]", NOT_JSON),
];

// Lines, each with its line feed.
fn joined(alloc: Global, lines: &[&str]) -> Result<Vec<u8>, AllocError> {
    let mut bytes = Vec::new(alloc);
    for line in lines {
        bytes.extend_from_slice(line.as_bytes())?;
        bytes.push(b'\n')?;
    }
    Ok(bytes)
}

// Bytes in pieces of a size, to a reader and its taker.
fn fed<W, T: Taker<W>>(
    alloc: Global,
    bytes: &[u8],
    size: usize,
    taker: &mut T,
    world: &mut W,
) -> Result<(), FeedStop>
    requires { 0 < size }
{
    let mut reader = CertReader::new(alloc);
    let mut count = 0;
    'pieces: for piece in bytes.chunks(size) {
        if piece.len() > LONGEST - count {
            return Err(FeedStop::NoMemory);
        }
        reader.feed(piece, taker, world)?;
        count += piece.len();
    }
    reader.finish(taker, world)
}

// Writes the lines of the items that it takes behind those in its world.
#[derive(Drop)]
struct Scribe {
    alloc: Global,
}

impl Taker<Vec<u8>> for Scribe {
    ghost stands_for = { λ taker world items. Unit {0} };

    ghost refuses = { λ taker world item. Unit {0} };

    ghost keeps = { λ earlier before later after. Unit {0} };

    ghost stops = { λ taker. 0 };

    ghost keeps_itself = { λ taker world. tt };

    ghost keeps_on = { λ a u b v c w first second. tt };

    fn take(&mut self, world: &mut Vec<u8>, item: &Item) -> Result<(), TakeStop> {
        let line = line_of(self.alloc, item)?;
        if world.extend_from_slice(line.as_slice()).is_err() {
            return Err(TakeStop::NoMemory);
        }
        Ok(())
    }
}

// Counts its takes, and refuses each from the third on.
#[derive(Drop)]
struct Reluctant {
    takes: u64,
    stops: u64,
}

impl Taker<()> for Reluctant {
    ghost stands_for = { λ taker world items. Unit {0} };

    ghost refuses = { λ taker world item. Unit {0} };

    ghost keeps = { λ earlier before later after. Unit {0} };

    ghost stops = { λ taker. taker.stops };

    ghost keeps_itself = { λ taker world. tt };

    ghost keeps_on = { λ a u b v c w first second. tt };

    fn take(&mut self, _world: &mut (), _item: &Item) -> Result<(), TakeStop> {
        self.takes = self.takes.saturating_add(1);
        if self.takes < 3 {
            return Ok(());
        }
        self.stops = self.stops.saturating_add(1);
        Err(TakeStop::Stopped)
    }
}

// What a reader answers to bytes whose items are all taken.
fn taken(alloc: Global, bytes: &[u8]) -> Result<(), FeedStop> {
    fed(alloc, bytes, 7, &mut Collector::new(alloc), &mut ())
}

// What a reader answers to the lines, of which one is another.
fn answer(alloc: Global, damage: Damage) -> Result<Result<(), FeedStop>, AllocError> {
    let (line, text, _) = damage;
    let mut lines = Vec::from_slice(alloc, &DIAMOND)?;
    if 0 < line && line <= lines.len() {
        lines[line - 1] = text;
    }
    let bytes = joined(alloc, &lines)?;
    Ok(taken(alloc, &bytes))
}

fn fault(line: usize, rule: u8) -> Result<(), FeedStop> {
    Err(FeedStop::Fault(CertFault {
        line: line as u64,
        rule,
    }))
}

#[test]
fn the_items_of_pieces_of_any_size_are_the_lines(rt: HostRuntime) -> Result<(), Fail> {
    let alloc = rt.alloc();
    let bytes = joined(alloc, &DIAMOND)?;
    for size in [1, 7, 4096] {
        let mut written = Vec::new(alloc);
        let read = fed(alloc, &bytes, size, &mut Scribe { alloc }, &mut written);
        assert_eq!(rt; read, Ok(()), "in pieces of {size}");
        assert_eq!(rt; written.as_slice(), bytes.as_slice(), "in pieces of {size}");
    }
    Ok(())
}

#[test]
fn a_node_has_seen_the_tables_before_it(rt: HostRuntime) -> Result<(), Fail> {
    let alloc = rt.alloc();
    let bytes = joined(alloc, &DIAMOND)?;
    let mut collector = Collector::new(alloc);
    assert_eq!(rt; fed(alloc, &bytes, 4096, &mut collector, &mut ()), Ok(()));
    let mut seen = Vec::new(alloc);
    if let Some(cert) = collector.cert() {
        for node in cert.nodes.as_slice() {
            seen.push(node.seen)?;
        }
    }
    assert_eq!(rt; seen.as_slice(), [4, 6, 10].as_slice());
    Ok(())
}

#[test]
fn a_certificate_has_the_items_that_were_read(rt: HostRuntime) -> Result<(), Fail> {
    let alloc = rt.alloc();
    let bytes = joined(alloc, &DIAMOND)?;
    let mut collector = Collector::new(alloc);
    assert_eq!(rt; fed(alloc, &bytes, 4096, &mut collector, &mut ()), Ok(()));
    let cert = collector.cert().ok_or("no certificate")?;
    let mut written = Vec::new(alloc);
    for item in items_of(alloc, cert)?.as_slice() {
        written.extend_from_slice(line_of(alloc, item)?.as_slice())?;
    }
    assert_eq!(rt; written.as_slice(), bytes.as_slice());
    Ok(())
}

#[test]
fn the_first_rule_that_a_damaged_line_breaks_is_named(rt: HostRuntime) -> Result<(), Fail> {
    for damage in DAMAGES {
        let (line, text, rule) = damage;
        assert_eq!(rt; answer(rt.alloc(), damage)?, fault(line, rule), "{text}");
    }
    Ok(())
}

#[test]
fn no_take_is_made_after_a_refused_one(rt: HostRuntime) -> Result<(), Fail> {
    let bytes = joined(rt.alloc(), &DIAMOND)?;
    assert!(rt; bytes.len() < LONGEST);
    let mut reader = CertReader::new(rt.alloc());
    let mut taker = Reluctant { takes: 0, stops: 0 };
    let refused = Err(FeedStop::Stopped(3));
    assert_eq!(rt; reader.feed(&bytes, &mut taker, &mut ()), refused);
    assert_eq!(rt; taker.takes, 3, "in the call");
    assert_eq!(rt; reader.feed(&bytes, &mut taker, &mut ()), refused);
    assert_eq!(rt; reader.finish(&mut taker, &mut ()), refused);
    assert_eq!(rt; taker.takes, 3, "in later calls");
    Ok(())
}

#[test]
fn an_end_closes_the_lines(rt: HostRuntime) -> Result<(), Fail> {
    let alloc = rt.alloc();
    let unended = joined(alloc, &DIAMOND.as_slice()[..15])?;
    let mut unfed = joined(alloc, &DIAMOND)?;
    let _line_feed = unfed.pop();
    let mut twice = joined(alloc, &DIAMOND)?;
    twice.extend_from_slice(DIAMOND[15].as_bytes())?;
    assert_eq!(rt; taken(alloc, &unended), fault(16, NO_END));
    assert_eq!(rt; taken(alloc, &unfed), Ok(()), "no last line feed");
    assert_eq!(rt; taken(alloc, &twice), fault(17, AFTER_END));
    Ok(())
}

#[test]
fn a_line_may_not_have_one_byte_more(rt: HostRuntime) -> Result<(), Fail> {
    let alloc = rt.alloc();
    let bytes = vec![in alloc; b' '; 65_537]?;
    let mut collector = Collector::new(alloc);
    assert_eq!(rt;
        fed(alloc, &bytes, 4096, &mut collector, &mut ()),
        fault(1, LONG_LINE)
    );
    Ok(())
}
