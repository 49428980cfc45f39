// A shelf and a sink in memory whose listed calls fail.
ghost use Rattle.std.specs.Prelude.{◌≡◌, ◌<◌, ◌⊎◌, ◌↔◌, ◌++◌, [], Some, length, IfOk, OnOk, OnErr, IsErrOf, IsOkUnless};
ghost use Rattle.std.specs.Option.{option_copied};
ghost use Rattle.std.specs.FinMap as map;
ghost use Rattle.gsm_outside.specs.Causes.{count_after};
ghost use Rattle.gsm_outside.specs.Held.{Fetched, most_fetched, with_bytes, with_piece};

use crate::calls::Calls;
use crate::fault::count_fault;
use crate::kept::{Kept, copy_from};
use crate::{OutFault, Shelf, Sink};
use std::alloc::Global;

/// Files in memory, for runs in which calls fail: those whose numbers are listed, and a fetch or an append on a
/// missing name.
#[derive(Drop)]
pub struct MemShelf {
    files: Kept,
    calls: Calls,
    read_faults: u64,
    write_faults: u64,
}

impl MemShelf {
    ghost use Rattle.gsm_outside.specs.Memory.{mem_files, mem_failing, mem_calls, mem_read_faults, mem_write_faults, IsUncounted};

    /// A shelf without files. The calls of fetch, create and append are counted together, from 1.
    pub fn new(alloc: Global, failing: Vec<u64>) -> MemShelf
        ensures files { mem_files result ≡ map.empty }
        ensures failing { mem_failing result ≡ failing.items }
        ensures calls { mem_calls result ≡ 0 }
        ensures read_faults { mem_read_faults result ≡ 0 }
        ensures write_faults { mem_write_faults result ≡ 0 }
    {
        MemShelf {
            files: Kept::new(alloc),
            calls: Calls::new(failing),
            read_faults: 0,
            write_faults: 0,
        }
    }

    /// Puts a file on the shelf, in the place of one of that name. It is not counted among the calls.
    pub fn with_file(&mut self, name: &str, bytes: &[u8]) -> Result<(), OutFault>
        ensures ok { OnOk result (mem_files self.new ≡ with_bytes (mem_files self.old) name.now bytes.now) }
        ensures unchanged { OnErr result (mem_files self.new ≡ mem_files self.old) }
        ensures uncounted { IsUncounted self.old self.new }
        ensures only { IsOkUnless result OutFault.NoMemory }
    {
        self.files.put(name.as_bytes(), bytes)?;
        Ok(())
    }

    /// The bytes of a file, and None exactly where there is no such file.
    pub fn bytes_of(&self, name: &str) -> Option<&[u8]>
        ensures { option_copied result ≡ map.get (mem_files self.now) name.now }
    {
        self.files.bytes_of(name.as_bytes())
    }
}

impl Shelf for MemShelf {
    ghost use Rattle.gsm_outside.specs.Memory.{mem_files, mem_bytes, mem_read_faults, mem_write_faults, IsNextListed, IsMissing, IsCounted};

    ghost held = { λ shelf. Some (mem_files shelf) };

    ghost read_faults = { mem_read_faults };

    ghost write_faults = { mem_write_faults };

    fn fetch(&mut self, name: &str, at: u64, buf: &mut [u8]) -> Result<usize, OutFault>
        requires { 0 < length buf.old }
        ensures bytes { IfOk result (λ n. Fetched (mem_bytes self.old name.now) at buf.new n) }
        ensures count { IfOk result (λ n. n ≡ most_fetched (mem_bytes self.old name.now) at buf.new) }
        ensures held { mem_files self.new ≡ mem_files self.old }

        ensures fails { IsErrOf result OutFault.Failed
            ↔ (IsNextListed self.old ⊎ IsMissing self.old name.now) }
        ensures only { IsOkUnless result OutFault.Failed }
        ensures counted { IsCounted self.old self.new }
        ensures reads { mem_read_faults self.new ≡ count_after (mem_read_faults self.old) result }
        ensures writes { mem_write_faults self.new ≡ mem_write_faults self.old }
    {
        if !self.calls.fails_next()
            && let Some(bytes) = self.files.bytes_of(name.as_bytes())
        {
            return Ok(copy_from(bytes, at, buf));
        }
        Err(count_fault(&mut self.read_faults))
    }

    fn create(&mut self, name: &str) -> Result<(), OutFault>
        ensures ok { OnOk result (mem_files self.new ≡ with_bytes (mem_files self.old) name.now []) }
        ensures unchanged { OnErr result (mem_files self.new ≡ mem_files self.old) }

        ensures fails { IsErrOf result OutFault.Failed ↔ IsNextListed self.old }
        ensures counted { IsCounted self.old self.new }
        ensures reads { mem_read_faults self.new ≡ mem_read_faults self.old }
        ensures writes { mem_write_faults self.new ≡ count_after (mem_write_faults self.old) result }
    {
        if self.calls.fails_next() {
            return Err(count_fault(&mut self.write_faults));
        }
        self.files.put(name.as_bytes(), &[])?;
        Ok(())
    }

    fn append(&mut self, name: &str, piece: &[u8]) -> Result<(), OutFault>
        ensures ok { OnOk result (mem_files self.new ≡ with_piece (mem_files self.old) name.now piece.now) }
        ensures unchanged { OnErr result (mem_files self.new ≡ mem_files self.old) }

        ensures fails { IsErrOf result OutFault.Failed
            ↔ (IsNextListed self.old ⊎ IsMissing self.old name.now) }
        ensures counted { IsCounted self.old self.new }
        ensures reads { mem_read_faults self.new ≡ mem_read_faults self.old }
        ensures writes { mem_write_faults self.new ≡ count_after (mem_write_faults self.old) result }
    {
        if self.calls.fails_next() || self.files.bytes_of(name.as_bytes()).is_none() {
            return Err(count_fault(&mut self.write_faults));
        }
        self.files.add(name.as_bytes(), piece)?;
        Ok(())
    }
}

/// Output in memory, for runs in which puts fail: those whose numbers are listed.
#[derive(Drop)]
pub struct MemSink {
    bytes: Vec<u8>,
    puts: Calls,
    faults: u64,
}

impl MemSink {
    ghost use Rattle.gsm_outside.specs.Memory.{mem_written, mem_failing_puts, mem_puts, mem_faults};

    /// A sink to which nothing was written. The puts are counted from 1.
    pub fn new(alloc: Global, failing: Vec<u64>) -> MemSink
        ensures written { mem_written result ≡ [] }
        ensures failing { mem_failing_puts result ≡ failing.items }
        ensures puts { mem_puts result ≡ 0 }
        ensures faults { mem_faults result ≡ 0 }
    {
        MemSink {
            bytes: Vec::new(alloc),
            puts: Calls::new(failing),
            faults: 0,
        }
    }

    /// All bytes that were written.
    pub fn written(&self) -> &[u8]
        ensures { result.now ≡ mem_written self.now }
    {
        &self.bytes
    }
}

impl Sink for MemSink {
    ghost use Rattle.gsm_outside.specs.Memory.{mem_written, mem_faults, IsNextPutListed, IsPutCounted};

    ghost written = { λ sink. Some (mem_written sink) };

    ghost faults = { mem_faults };

    fn put(&mut self, piece: &[u8]) -> Result<(), OutFault>
        ensures ok { OnOk result (mem_written self.new ≡ mem_written self.old ++ piece.now) }
        ensures unchanged { OnErr result (mem_written self.new ≡ mem_written self.old) }

        ensures fails { IsErrOf result OutFault.Failed ↔ IsNextPutListed self.old }
        ensures counted { IsPutCounted self.old self.new }
        ensures faults { mem_faults self.new ≡ count_after (mem_faults self.old) result }
    {
        if self.puts.fails_next() {
            return Err(count_fault(&mut self.faults));
        }
        self.bytes.extend_from_slice(piece)?;
        Ok(())
    }
}
