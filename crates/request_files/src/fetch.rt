// Reading a file by fetches.
ghost use Rattle.std.specs.Prelude.{◌≡◌, ◌<◌, ◌≤◌, ◌+◌, ◌^◌, length, IfOk, OnOk, IsErrOf};
ghost use Rattle.gsm_outside.specs.Causes.{Rose};
ghost use Rattle.request_files.specs.Reading.{IsFront, WhereTold, ReadCase};

use crate::unread::ReadStop;
use gsm_outside::{OutFault, Shelf};
use service_model::List;
use std::alloc::Global;

/// How many bytes are asked for at once.
const CHUNK: usize = 16_384;

/// Reads a file to its end, or to one byte past the limit.
pub fn read_file<S: Shelf>(
    alloc: Global,
    shelf: &mut S,
    name: &str,
    limit: u64,
) -> Result<List<u8>, ReadStop>
    requires { limit + 1 < 2 ^ 63 }
    ensures case { ReadCase limit (S.held shelf.old) name.now (S.read_faults shelf.old) (S.read_faults shelf.new) result }
    ensures held { S.held shelf.new ≡ S.held shelf.old }
    ensures writes { S.write_faults shelf.new ≡ S.write_faults shelf.old }
{
    let mut bytes = Vec::new(alloc);
    'turns: while (bytes.len() as u64) <= limit {
        let room = (limit + 1 - bytes.len() as u64).min(CHUNK as u64) as usize;
        if read_more(shelf, name, &mut bytes, room)? == 0 {
            return Ok(List::from_vec(bytes));
        }
    }
    Err(ReadStop::TooLong)
}

// One fetch, whose bytes follow those that were read before.
fn read_more<S: Shelf>(
    shelf: &mut S,
    name: &str,
    bytes: &mut Vec<u8>,
    room: usize,
) -> Result<usize, ReadStop>
    requires some { 0 < room }
    requires fits { room ≤ CHUNK }
    requires small { length bytes.old.items < 2 ^ 63 }
    ensures count { IfOk result (λ count. (length bytes.new.items ≡ length bytes.old.items + count) × (count ≤ room)) }
    ensures front { IfOk result (λ count. WhereTold (S.held shelf.old) name.now (λ file. IsFront file bytes.old.items → IsFront file bytes.new.items × (count ≡ 0 → bytes.new.items ≡ file))) }
    ensures ok { OnOk result (S.read_faults shelf.new ≡ S.read_faults shelf.old) }
    ensures later { S.read_faults shelf.old ≤ S.read_faults shelf.new }
    ensures cause { IsErrOf result ReadStop.Fault → Rose (S.read_faults shelf.old) (S.read_faults shelf.new) }
    ensures not_long { IsErrOf result ReadStop.TooLong → ⊥ }
    ensures held { S.held shelf.new ≡ S.held shelf.old }
    ensures writes { S.write_faults shelf.new ≡ S.write_faults shelf.old }
{
    let mut buffer = [0; CHUNK];
    match shelf.fetch(name, bytes.len() as u64, &mut buffer[..room]) {
        Ok(count) => {
            if bytes.extend_from_slice(&buffer[..count]).is_err() {
                return Err(ReadStop::NoMemory);
            }
            Ok(count)
        }
        Err(OutFault::Failed) => Err(ReadStop::Fault),
        Err(OutFault::NoMemory) => Err(ReadStop::NoMemory),
    }
}
