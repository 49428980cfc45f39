// What the shelves and sinks give and take, through the bounds by which a caller holds them.
use crate::{FileShelf, MemShelf, MemSink, OutFault, Shelf, Sink, StdSink, SureShelf, SureSink};
use std::alloc::Global;
use std::process::{self, Abort};
use std::test::Fail;
use std::{env, fs};

// A whole file, by fetches of three bytes.
fn read_whole<S: Shelf>(alloc: Global, shelf: &mut S, name: &str) -> Result<Vec<u8>, OutFault> {
    let mut bytes = Vec::new(alloc);
    let mut buf = [0; 3];
    for _ in 0..100 {
        let count = shelf.fetch(name, bytes.len() as u64, &mut buf)?;
        if count == 0 {
            break;
        }
        bytes.extend_from_slice(&buf[..count])?;
    }
    Ok(bytes)
}

fn write_plan<S: Shelf>(shelf: &mut S, name: &str) -> Result<(), OutFault> {
    shelf.create(name)?;
    shelf.append(name, b"inbound")?;
    shelf.append(name, b"")?;
    shelf.append(name, b",outbound")
}

fn assert_reads<S: Shelf>(
    rt: &(impl AllocGlobal + Abort),
    shelf: &mut S,
    name: &str,
    want: &str,
) -> Result<(), OutFault> {
    let bytes = read_whole(rt.alloc(), shelf, name)?;
    assert_eq!(rt; bytes.as_slice(), want.as_bytes());
    Ok(())
}

fn assert_holds(rt: &impl Abort, got: Option<&[u8]>, want: Option<&str>) {
    assert_eq!(rt; got, want.map(|text| text.as_bytes()));
}

#[test]
fn a_file_is_read_from_each_place(rt: HostRuntime) -> Result<(), Fail> {
    let mut shelf = SureShelf::new(rt.alloc());
    shelf.with_file("stages", b"laptop")?;
    let mut buf = [0; 4];
    for (at, want) in [(0, "lapt"), (4, "op"), (5, "p"), (6, ""), (9, "")] {
        let count = shelf.fetch("stages", at, &mut buf)?;
        assert_eq!(rt; &buf[..count], want.as_bytes(), "from {at} on");
    }
    Ok(())
}

#[test]
fn pieces_follow_one_another_and_other_files_stay(rt: HostRuntime) -> Result<(), Fail> {
    let mut shelf = SureShelf::new(rt.alloc());
    shelf.with_file("stages", b"laptop")?;
    shelf.with_file("plan", b"an old plan")?;
    write_plan(&mut shelf, "plan")?;
    assert_holds(&rt, shelf.bytes_of("plan"), Some("inbound,outbound"));
    assert_holds(&rt, shelf.bytes_of("stages"), Some("laptop"));
    Ok(())
}

#[test]
fn a_missing_name_reads_as_empty_and_an_append_makes_it(rt: HostRuntime) -> Result<(), Fail> {
    let mut shelf = SureShelf::new(rt.alloc());
    assert_reads(&rt, &mut shelf, "cert", "")?;
    assert_holds(&rt, shelf.bytes_of("cert"), None);
    shelf.append("cert", b"head")?;
    assert_holds(&rt, shelf.bytes_of("cert"), Some("head"));
    Ok(())
}

#[test]
fn a_shelf_without_listed_calls_is_written_and_read(rt: HostRuntime) -> Result<(), Fail> {
    let mut shelf = MemShelf::new(rt.alloc(), Vec::new(rt.alloc()));
    shelf.with_file("stages", b"laptop")?;
    write_plan(&mut shelf, "plan")?;
    assert_reads(&rt, &mut shelf, "plan", "inbound,outbound")?;
    assert_holds(&rt, shelf.bytes_of("stages"), Some("laptop"));
    Ok(())
}

fn put_cost<K: Sink>(sink: &mut K) -> Result<(), OutFault> {
    sink.put(b"cost,")?;
    sink.put(b"")?;
    sink.put(b"12\n")
}

#[test]
fn what_was_put_is_written(rt: HostRuntime) -> Result<(), Fail> {
    let mut sure = SureSink::new(rt.alloc());
    put_cost(&mut sure)?;
    assert_holds(&rt, Some(sure.written()), Some("cost,12\n"));
    let mut failing = MemSink::new(rt.alloc(), Vec::new(rt.alloc()));
    put_cost(&mut failing)?;
    assert_holds(&rt, Some(failing.written()), Some("cost,12\n"));
    Ok(())
}

#[test]
fn standard_output_takes_a_line(rt: HostRuntime) -> Result<(), Fail> {
    put_cost(&mut StdSink::new(&rt))?;
    Ok(())
}

// A name that can be written: in the current folder, or else in the one for temporary files.
fn scratch_name(rt: &HostRuntime) -> Result<String, Fail> {
    let name = format!(in rt.alloc(); "gsm_outside_{}", process::id(rt.process()))?;
    if fs::create(rt, name.as_str()).is_ok() {
        return Ok(name);
    }
    let folder = env::temp_dir(rt)?;
    Ok(format!(in rt.alloc(); "{}/{name}", folder.as_str())?)
}

#[test]
fn real_files_are_made_written_and_read(rt: HostRuntime) -> Result<(), Fail> {
    let name = scratch_name(&rt)?;
    let mut shelf = FileShelf::new(&rt);
    write_plan(&mut shelf, name.as_str())?;
    assert_reads(&rt, &mut shelf, name.as_str(), "inbound,outbound")?;
    write_plan(&mut shelf, name.as_str())?;
    assert_reads(&rt, &mut shelf, name.as_str(), "inbound,outbound")?;
    fs::remove_file(&rt, name.as_str())?;
    let missing = shelf.fetch(name.as_str(), 0, &mut [0; 4]);
    assert_eq!(rt; missing, Err(OutFault::Failed));
    Ok(())
}
