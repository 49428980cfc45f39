ghost use Rattle.std.specs.Prelude.{◌≡◌, Some};
ghost use Rattle.gsm_outside.specs.Memory.{mem_files, mem_read_faults, mem_write_faults};

use super::*;
use crate::tests::AUDIT;
use command_words::FileWord;
use gsm_outside::{MemShelf, OutFault, Shelf};
use std::alloc::Global;
use std::test::Fail;

// A shelf that counts the fetches from another.
#[derive(Drop)]
struct CountingShelf {
    shelf: MemShelf,
    fetches: u64,
}

impl Shelf for CountingShelf {
    ghost held = { λ counting. Some (mem_files counting.shelf) };

    ghost read_faults = { λ counting. mem_read_faults counting.shelf };

    ghost write_faults = { λ counting. mem_write_faults counting.shelf };

    fn fetch(&mut self, name: &str, at: u64, buf: &mut [u8]) -> Result<usize, OutFault> {
        self.fetches = self.fetches.saturating_add(1);
        self.shelf.fetch(name, at, buf)
    }

    fn create(&mut self, name: &str) -> Result<(), OutFault> {
        self.shelf.create(name)
    }

    fn append(&mut self, name: &str, piece: &[u8]) -> Result<(), OutFault> {
        self.shelf.append(name, piece)
    }
}

// A shelf with the four files, whose listed calls fail.
fn failing_shelf(alloc: Global, call: u64) -> Result<CountingShelf, Fail> {
    let mut shelf = MemShelf::new(alloc, vec![in alloc; call]?);
    for name in ["s", "t", "a", "p"] {
        shelf.with_file(name, b"bytes")?;
    }
    Ok(CountingShelf { shelf, fetches: 0 })
}

// Each file is read by two fetches, the second of which finds its end.
const FILES: [FileWord; 8] = [
    FileWord::Stages,
    FileWord::Stages,
    FileWord::Tables,
    FileWord::Tables,
    FileWord::Arcs,
    FileWord::Arcs,
    FileWord::Plan,
    FileWord::Plan,
];

#[test]
fn each_fetch_that_fails_is_the_last_and_is_told_by_its_file(rt: HostRuntime) -> Result<(), Fail> {
    let alloc = rt.alloc();
    for (before, file) in FILES.iter().enumerate() {
        let call = before as u64 + 1;
        let mut shelf = failing_shelf(alloc, call)?;
        let read = read_files(alloc, &mut shelf, &AUDIT);
        let got = (read.err(), shelf.fetches);
        assert_eq!(rt; got, (Some(Unread::Fault(*file)), call));
    }
    Ok(())
}
