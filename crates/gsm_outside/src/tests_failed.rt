// What is left after a call on the outside has failed.
use crate::fakes::ShortOutput;
use crate::{MemShelf, MemSink, OutFault, Shelf, Sink, StdSink};
use std::cell::{Cell, RefCell};
use std::test::Fail;

#[derive(Clone, Copy)]
enum Call {
    Create,
    Append,
    Fetch,
}

fn answer<S: Shelf>(shelf: &mut S, call: Call) -> Result<(), OutFault> {
    match call {
        Call::Create => shelf.create("cert"),
        Call::Append => shelf.append("cert", b"ab"),
        Call::Fetch => shelf.fetch("cert", 0, &mut [0; 4]).map(|_| ()),
    }
}

// The listed calls are the second, the fourth and the fifth.
#[test]
fn exactly_the_listed_calls_fail(rt: HostRuntime) -> Result<(), Fail> {
    let mut shelf = MemShelf::new(rt.alloc(), vec![in rt.alloc(); 4, 2, 5]?);
    shelf.with_file("cert", b"head")?;
    for (call, fails) in [
        (Call::Append, false),
        (Call::Append, true),
        (Call::Fetch, false),
        (Call::Fetch, true),
        (Call::Create, true),
        (Call::Append, false),
    ] {
        let fault = answer(&mut shelf, call).err();
        assert_eq!(rt; fault, fails.then_some(OutFault::Failed));
    }
    assert_eq!(rt; shelf.bytes_of("cert"), Some(b"headabab".as_slice()));
    Ok(())
}

#[test]
fn a_fetch_and_an_append_on_a_missing_name_fail(rt: HostRuntime) -> Result<(), Fail> {
    let mut shelf = MemShelf::new(rt.alloc(), Vec::new(rt.alloc()));
    for (call, fails) in [
        (Call::Fetch, true),
        (Call::Append, true),
        (Call::Create, false),
        (Call::Fetch, false),
    ] {
        let fault = answer(&mut shelf, call).err();
        assert_eq!(rt; fault, fails.then_some(OutFault::Failed));
    }
    assert_eq!(rt; shelf.bytes_of("cert"), Some(b"".as_slice()));
    Ok(())
}

#[test]
fn exactly_the_listed_puts_fail(rt: HostRuntime) -> Result<(), Fail> {
    let mut sink = MemSink::new(rt.alloc(), vec![in rt.alloc(); 2]?);
    for (piece, fails) in [("a", false), ("b", true), ("c", false)] {
        assert_eq!(rt; sink.put(piece.as_bytes()).is_err(), fails, "at {piece}");
    }
    assert_eq!(rt; sink.written(), b"ac".as_slice());
    Ok(())
}

#[test]
fn a_put_goes_on_after_a_short_write_and_ends_at_an_error(rt: HostRuntime) -> Result<(), Fail> {
    for (failing, room, answer, want) in [
        (0, 3, Ok(()), "outbound"),
        (1, 3, Err(OutFault::Failed), ""),
        (3, 3, Err(OutFault::Failed), "outbou"),
        (0, 0, Err(OutFault::Failed), ""),
    ] {
        let output = ShortOutput {
            written: RefCell::new(Vec::new(rt.alloc())),
            writes: Cell::new(0),
            failing,
            room,
        };
        let got = StdSink::new(&output).put(b"outbound");
        assert_eq!(rt; got, answer, "failing {failing}, room {room}");
        assert_eq!(rt;
            output.written.into_inner().as_slice(),
            want.as_bytes(),
            "failing {failing}"
        );
    }
    Ok(())
}
