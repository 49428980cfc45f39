use super::*;
use command_words::{Command, FileWord, Request};
use gsm_outside::SureShelf;
use std::alloc::Global;
use std::test::Fail;

// What `audit` asks of four files.
pub const AUDIT: Request<'static> = Request {
    command: Command::Audit,
    stages: "s",
    tables: "t",
    arcs: "a",
    further: "p",
    cert: None,
    horizon: 2,
    ranges: None,
    trial: None,
};

// What `session` asks of four files, one of them the script.
const SESSION: Request<'static> = Request {
    command: Command::Session,
    stages: "s",
    tables: "t",
    arcs: "a",
    further: "p",
    cert: None,
    horizon: 2,
    ranges: None,
    trial: None,
};

fn shelf_with(alloc: Global, stages: &[u8]) -> Result<SureShelf, Fail> {
    let mut shelf = SureShelf::new(alloc);
    shelf.with_file("s", stages)?;
    shelf.with_file("t", b"tables")?;
    shelf.with_file("p", b"plan")?;
    Ok(shelf)
}

#[test]
fn the_files_of_a_request_are_read_whole(rt: HostRuntime) -> Result<(), Fail> {
    let alloc = rt.alloc();
    let stages = vec![in alloc; b'x'; 20_000]?;
    let mut shelf = shelf_with(alloc, &stages)?;
    let Ok(contents) = read_files(alloc, &mut shelf, &AUDIT) else {
        return Err("a file was not read".into());
    };
    assert!(rt; contents.stages.as_slice() == stages.as_slice());
    let others = (contents.tables.as_slice(), contents.arcs.as_slice());
    assert_eq!(rt; others, (b"tables".as_slice(), b"".as_slice()));
    assert_eq!(rt; contents.further.as_slice(), b"plan".as_slice());
    Ok(())
}

#[test]
fn a_file_past_its_limit_is_too_long(rt: HostRuntime) -> Result<(), Fail> {
    let alloc = rt.alloc();
    let mut shelf = shelf_with(alloc, vec![in alloc; b'x'; 16_777_217]?.as_slice())?;
    let read = read_files(alloc, &mut shelf, &AUDIT);
    assert_eq!(rt; read.err(), Some(Unread::TooLong(FileWord::Stages)));
    Ok(())
}

#[test]
fn a_script_is_read_behind_the_arcs_up_to_the_limit_of_other_files(
    rt: HostRuntime,
) -> Result<(), Fail> {
    let alloc = rt.alloc();
    let mut shelf = shelf_with(alloc, b"stages")?;
    let Ok(contents) = read_files(alloc, &mut shelf, &SESSION) else {
        return Err("a file was not read".into());
    };
    assert_eq!(rt; contents.further.as_slice(), b"plan".as_slice());
    shelf.with_file("p", vec![in alloc; b'x'; 16_777_217]?.as_slice())?;
    let read = read_files(alloc, &mut shelf, &SESSION);
    assert_eq!(rt; read.err(), Some(Unread::TooLong(FileWord::Script)));
    Ok(())
}
