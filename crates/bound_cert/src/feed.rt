// Items of bytes, handed to a taker.
ghost use Rattle.std.specs.Prelude.{◌≡◌, ◌≤◌, ◌+◌, ◌-◌, ◌^◌, length, OnOk};
ghost use Rattle.service_model.specs.Takers.{state_of};
ghost use Rattle.bound_cert.specs.Stream as bytes;
ghost use Rattle.bound_cert.specs.Steps.{CanCount, Follows, Within};
ghost use Rattle.bound_cert.specs.Feeding.{Stepped, Feeds};

use crate::fault::FeedStop;
use crate::stream::Stream;
use service_model::{TakeStop, Taker};

// One byte, and the item of the line that it ends.
fn hand_byte<W, T: Taker<W>>(
    stream: &mut Stream,
    byte: u8,
    taker: &mut T,
    world: &mut W,
) -> Result<(), FeedStop>
    requires { CanCount stream.old }
    ensures stepped { Stepped
        (state_of (T.stands_for taker.old world.old) (T.stops taker.old) (T.refuses taker.old world.old))
        (state_of (T.stands_for taker.new world.new) (T.stops taker.new) (T.refuses taker.new world.new))
        stream.new (bytes.read_byte stream.old byte) result }
    ensures keeps { T.keeps taker.old world.old taker.new world.new }
    ensures follows { OnOk result (Follows stream.old stream.new) }
{
    match stream.read_byte(byte)? {
        None => Ok(()),
        Some(item) => match taker.take(world, &item) {
            Ok(()) => Ok(()),
            Err(TakeStop::NoMemory) => Err(FeedStop::NoMemory),
            Err(TakeStop::Stopped) => Err(FeedStop::Stopped(stream.lines())),
        },
    }
}

/// The items of the lines that a piece of the bytes makes whole.
pub(crate) fn hand_all<W, T: Taker<W>>(
    stream: &mut Stream,
    piece: &[u8],
    taker: &mut T,
    world: &mut W,
) -> Result<(), FeedStop>
    requires room { stream.old.lines + length stream.old.begun + length piece.now ≤ 2 ^ 32 }
    requires counts { Within stream.old (stream.old.lines + length stream.old.begun) }
    ensures feeds { Feeds (bytes.reads piece.now stream.old)
        (state_of (T.stands_for taker.old world.old) (T.stops taker.old) (T.refuses taker.old world.old))
        (state_of (T.stands_for taker.new world.new) (T.stops taker.new) (T.refuses taker.new world.new))
        stream.old.lines stream.new result }
    ensures keeps { T.keeps taker.old world.old taker.new world.new }
    ensures counts { OnOk result (Within stream.new (stream.old.lines + length stream.old.begun + length piece.now)) }
{
    'bytes: for byte in piece {
        if let Err(stop) = hand_byte(stream, *byte, taker, world) {
            return Err(stop);
        }
    }
    Ok(())
}

// The item of a last line without a line feed.
fn hand_last<W, T: Taker<W>>(
    stream: &mut Stream,
    taker: &mut T,
    world: &mut W,
) -> Result<(), FeedStop>
    requires { CanCount stream.old }
    ensures stepped { Stepped
        (state_of (T.stands_for taker.old world.old) (T.stops taker.old) (T.refuses taker.old world.old))
        (state_of (T.stands_for taker.new world.new) (T.stops taker.new) (T.refuses taker.new world.new))
        stream.new (bytes.line_done stream.old) result }
    ensures keeps { T.keeps taker.old world.old taker.new world.new }
    ensures follows { OnOk result (Follows stream.old stream.new) }
{
    let item = stream.line_done()?;
    match taker.take(world, &item) {
        Ok(()) => Ok(()),
        Err(TakeStop::NoMemory) => Err(FeedStop::NoMemory),
        Err(TakeStop::Stopped) => Err(FeedStop::Stopped(stream.lines())),
    }
}

/// The item of a last line without a line feed, if there is one, and the end of the bytes.
pub(crate) fn hand_end<W, T: Taker<W>>(
    stream: &mut Stream,
    taker: &mut T,
    world: &mut W,
) -> Result<(), FeedStop>
    requires { Within stream.old (2 ^ 32) }
    ensures feeds { Feeds (bytes.reads_end stream.old)
        (state_of (T.stands_for taker.old world.old) (T.stops taker.old) (T.refuses taker.old world.old))
        (state_of (T.stands_for taker.new world.new) (T.stops taker.new) (T.refuses taker.new world.new))
        stream.old.lines stream.new result }
    ensures keeps { T.keeps taker.old world.old taker.new world.new }
{
    if !stream.has_begun() {
        return stream.close();
    }
    if let Err(stop) = hand_last(stream, taker, world) {
        return Err(stop);
    }
    stream.close()
}
