// A shelf and a sink in memory that never fail.
ghost use Rattle.std.specs.Prelude.{◌≡◌, ◌<◌, ◌++◌, [], Some, length, IsOk, IfOk, OnOk, OnErr, IsOkUnless};
ghost use Rattle.std.specs.Option.{option_copied};
ghost use Rattle.std.specs.FinMap as map;
ghost use Rattle.gsm_outside.specs.Held.{Fetched, most_fetched, with_bytes, with_piece};

use crate::kept::{Kept, copy_from};
use crate::{OutFault, Shelf, Sink};
use std::alloc::Global;

/// Files in memory, for runs in which no call fails. A missing name reads as empty; an append makes it.
#[derive(Drop)]
pub struct SureShelf {
    files: Kept,
}

impl SureShelf {
    ghost use Rattle.gsm_outside.specs.Memory.{sure_files};

    /// A shelf without files.
    pub fn new(alloc: Global) -> SureShelf
        ensures { sure_files result ≡ map.empty }
    {
        SureShelf {
            files: Kept::new(alloc),
        }
    }

    /// Puts a file on the shelf, in the place of one of that name.
    pub fn with_file(&mut self, name: &str, bytes: &[u8]) -> Result<(), OutFault>
        ensures ok { OnOk result (sure_files self.new ≡ with_bytes (sure_files self.old) name.now bytes.now) }
        ensures unchanged { OnErr result (sure_files self.new ≡ sure_files self.old) }
        ensures only { IsOkUnless result OutFault.NoMemory }
    {
        self.files.put(name.as_bytes(), bytes)?;
        Ok(())
    }

    /// The bytes of a file, and None exactly where there is no such file.
    pub fn bytes_of(&self, name: &str) -> Option<&[u8]>
        ensures { option_copied result ≡ map.get (sure_files self.now) name.now }
    {
        self.files.bytes_of(name.as_bytes())
    }
}

impl Shelf for SureShelf {
    ghost use Rattle.gsm_outside.specs.Memory.{sure_files, sure_bytes};

    ghost held = { λ shelf. Some (sure_files shelf) };

    ghost read_faults = { λ _. 0 };

    ghost write_faults = { λ _. 0 };

    fn fetch(&mut self, name: &str, at: u64, buf: &mut [u8]) -> Result<usize, OutFault>
        requires { 0 < length buf.old }
        ensures succeeds { IsOk result }
        ensures bytes { IfOk result (λ n. Fetched (sure_bytes self.old name.now) at buf.new n) }
        ensures count { IfOk result (λ n. n ≡ most_fetched (sure_bytes self.old name.now) at buf.new) }
        ensures held { sure_files self.new ≡ sure_files self.old }
    {
        match self.files.bytes_of(name.as_bytes()) {
            Some(bytes) => Ok(copy_from(bytes, at, buf)),
            None => Ok(0),
        }
    }

    fn create(&mut self, name: &str) -> Result<(), OutFault>
        ensures ok { OnOk result (sure_files self.new ≡ with_bytes (sure_files self.old) name.now []) }
        ensures unchanged { OnErr result (sure_files self.new ≡ sure_files self.old) }
        ensures only { IsOkUnless result OutFault.NoMemory }
    {
        self.files.put(name.as_bytes(), &[])?;
        Ok(())
    }

    fn append(&mut self, name: &str, piece: &[u8]) -> Result<(), OutFault>
        ensures ok { OnOk result (sure_files self.new ≡ with_piece (sure_files self.old) name.now piece.now) }
        ensures unchanged { OnErr result (sure_files self.new ≡ sure_files self.old) }
        ensures only { IsOkUnless result OutFault.NoMemory }
    {
        self.files.add(name.as_bytes(), piece)?;
        Ok(())
    }
}

/// Output in memory, for runs in which no put fails.
#[derive(Drop)]
pub struct SureSink {
    bytes: Vec<u8>,
}

impl SureSink {
    ghost use Rattle.gsm_outside.specs.Memory.{sure_written};

    /// A sink to which nothing was written.
    pub fn new(alloc: Global) -> SureSink
        ensures { sure_written result ≡ [] }
    {
        SureSink {
            bytes: Vec::new(alloc),
        }
    }

    /// All bytes that were written.
    pub fn written(&self) -> &[u8]
        ensures { result.now ≡ sure_written self.now }
    {
        &self.bytes
    }
}

impl Sink for SureSink {
    ghost use Rattle.gsm_outside.specs.Memory.{sure_written};

    ghost written = { λ sink. Some (sure_written sink) };

    ghost faults = { λ _. 0 };

    fn put(&mut self, piece: &[u8]) -> Result<(), OutFault>
        ensures ok { OnOk result (sure_written self.new ≡ sure_written self.old ++ piece.now) }
        ensures unchanged { OnErr result (sure_written self.new ≡ sure_written self.old) }
        ensures only { IsOkUnless result OutFault.NoMemory }
    {
        self.bytes.extend_from_slice(piece)?;
        Ok(())
    }
}
