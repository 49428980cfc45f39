use super::*;
use crate::tests::{run_once, words_of};
use gsm_outside::{MemShelf, MemSink};
use std::alloc::Global;
use std::test::Fail;

// A shelf with the plain case, whose listed calls fail.
fn plain_shelf(alloc: Global, failing: Vec<u64>) -> Result<MemShelf, Fail> {
    let mut shelf = MemShelf::new(alloc, failing);
    shelf.with_file(
        "s",
        b"stage,lead,supply,least,most,bound,unit\nA,5,,,2,t,1\n",
    )?;
    shelf.with_file("t", b"table,x\nt,0,10,14,17,20,22\n")?;
    shelf.with_file("a", b"supplier,customer,quantity\n")?;
    Ok(shelf)
}

#[test]
fn a_missing_file_is_a_read_fault(rt: HostRuntime) -> Result<(), Fail> {
    let alloc = rt.alloc();
    let words = words_of(
        alloc,
        &["solve", "stages=s", "tables=u", "arcs=a", "horizon=10"],
    )?;
    let mut shelf = plain_shelf(alloc, Vec::new(alloc))?;
    let mut out = MemSink::new(alloc, Vec::new(alloc));
    let status = run_once(alloc, &words, &mut shelf, &mut out);
    assert_eq!(rt; status, Status::ReadFault);
    assert_eq!(rt; out.written(), b"read fault,tables\n".as_slice());
    assert!(rt; shelf.bytes_of("u").is_none());
    Ok(())
}

#[test]
fn a_put_that_fails_is_a_write_fault(rt: HostRuntime) -> Result<(), Fail> {
    let alloc = rt.alloc();
    let words = words_of(
        alloc,
        &["solve", "stages=s", "tables=t", "arcs=a", "horizon=10"],
    )?;
    for failing in [0, 2] {
        let mut shelf = plain_shelf(alloc, vec![in alloc; failing]?)?;
        let mut out = MemSink::new(alloc, vec![in alloc; 1]?);
        let status = run_once(alloc, &words, &mut shelf, &mut out);
        assert_eq!(rt; status, Status::WriteFault, "shelf call {failing}");
        assert_eq!(rt; out.written(), b"".as_slice(), "shelf call {failing}");
    }
    Ok(())
}

// The lines of the plain case's certificate.
const CERT_LINES: [&str; 4] = [
    "[\"gsm-cert\",1,10,1,1000]\n",
    "[\"t\",0,2,0,2,0,[],[17]]\n",
    "[\"n\",[0],[[0],[2]]]\n",
    "[\"e\",0,17,[[0],[2]]]\n",
];

#[test]
fn a_certificate_that_cannot_be_written_is_a_write_fault(rt: HostRuntime) -> Result<(), Fail> {
    let alloc = rt.alloc();
    let words = words_of(
        alloc,
        &[
            "solve",
            "stages=s",
            "tables=t",
            "arcs=a",
            "horizon=10",
            "cert=c",
        ],
    )?;
    for lines in 0..5 {
        let mut shelf = plain_shelf(alloc, vec![in alloc; 7 + lines]?)?;
        let mut out = MemSink::new(alloc, Vec::new(alloc));
        let status = run_once(alloc, &words, &mut shelf, &mut out);
        let got = (status, out.written());
        assert_eq!(rt; got, (Status::WriteFault, b"write fault,cert\n".as_slice()));
        let mut front = Vec::new(alloc);
        for line in CERT_LINES.iter().take((lines as usize).saturating_sub(1)) {
            front.extend_from_slice(line.as_bytes())?;
        }
        let bytes = shelf.bytes_of("c").unwrap_or(b"");
        assert_eq!(rt; bytes, front.as_slice(), "line {lines}");
    }
    Ok(())
}
