// The real files and the real output: the trusted edge.
ghost use Rattle.std.specs.Prelude.{◌≡◌, ◌<◌, ◌≤◌, None, length, IfOk, OnOk, IsOkUnless};
ghost use Rattle.std.specs.Io.KnownBytes.{Appends};
ghost use Rattle.gsm_outside.specs.Causes.{count_after};

use crate::fault::count_fault;
use crate::{OutFault, Shelf, Sink};
use std::fs::{self, OpenOptions};
use std::io::{self, Print, Read, Seek, SeekFrom, Write};
use std::rt::Files;

/// The files of a runtime. It does not tell what they hold.
#[derive(Drop)]
pub struct FileShelf<'a, R> {
    rt: &'a R,
    read_faults: u64,
    write_faults: u64,
}

impl<'a, R: Files> FileShelf<'a, R> {
    ghost use Rattle.gsm_outside.specs.Real.{file_read_faults, file_write_faults};

    /// Opens no file: each call opens the file that it names.
    pub fn new(rt: &'a R) -> FileShelf<'a, R>
        ensures read_faults { file_read_faults result ≡ 0 }
        ensures write_faults { file_write_faults result ≡ 0 }
    {
        FileShelf {
            rt,
            read_faults: 0,
            write_faults: 0,
        }
    }
}

impl<'a, R: Files> Shelf for FileShelf<'a, R> {
    ghost use Rattle.gsm_outside.specs.Real.{file_read_faults, file_write_faults};

    ghost held = { λ _. None };

    ghost read_faults = { file_read_faults };

    ghost write_faults = { file_write_faults };

    fn fetch(&mut self, name: &str, at: u64, buf: &mut [u8]) -> Result<usize, OutFault>
        requires { 0 < length buf.old }
        ensures within { IfOk result (λ n. n ≤ length buf.new) }
        ensures only { IsOkUnless result OutFault.Failed }
        ensures reads { file_read_faults self.new ≡ count_after (file_read_faults self.old) result }
        ensures writes { file_write_faults self.new ≡ file_write_faults self.old }
    {
        match read_at(self.rt, name, at, buf) {
            Ok(count) => Ok(count),
            Err(_) => Err(count_fault(&mut self.read_faults)),
        }
    }

    fn create(&mut self, name: &str) -> Result<(), OutFault>
        ensures only { IsOkUnless result OutFault.Failed }
        ensures reads { file_read_faults self.new ≡ file_read_faults self.old }
        ensures writes { file_write_faults self.new ≡ count_after (file_write_faults self.old) result }
    {
        match fs::create(self.rt, name) {
            Ok(_) => Ok(()),
            Err(_) => Err(count_fault(&mut self.write_faults)),
        }
    }

    fn append(&mut self, name: &str, piece: &[u8]) -> Result<(), OutFault>
        ensures only { IsOkUnless result OutFault.Failed }
        ensures reads { file_read_faults self.new ≡ file_read_faults self.old }
        ensures writes { file_write_faults self.new ≡ count_after (file_write_faults self.old) result }
    {
        match write_behind(self.rt, name, piece) {
            Ok(()) => Ok(()),
            Err(_) => Err(count_fault(&mut self.write_faults)),
        }
    }
}

fn read_at<R: Files>(rt: &R, name: &str, at: u64, buf: &mut [u8]) -> io::Result<usize>
    ensures { IfOk result (λ n. n ≤ length buf.new) }
{
    let mut file = fs::open(rt, name)?;
    file.seek(SeekFrom::Start(at))?;
    file.read(buf)
}

fn write_behind<R: Files>(rt: &R, name: &str, piece: &[u8]) -> io::Result<()> {
    let mut file = OpenOptions::new().append(true).create(true).open(rt, name)?;
    write_whole(&mut file, piece)
}

// std's `write_all` goes on after an interrupted write, and this ends at the first error.
fn write_whole<W: Write>(writer: &mut W, piece: &[u8]) -> io::Result<()>
    ensures ok { OnOk result (Appends (W.contents writer.old) (W.contents writer.new) piece.now) }
{
    let mut rest = piece;
    'turns: while !rest.is_empty() {
        let count = writer.write(rest)?;
        if count == 0 {
            return Err(io::Error::from(io::ErrorKind::WriteZero));
        }
        rest = &rest[count..];
    }
    Ok(())
}

/// The standard output of a runtime. It does not tell what was written.
#[derive(Drop)]
pub struct StdSink<'a, R> {
    rt: &'a R,
    faults: u64,
}

impl<'a, R: Print> StdSink<'a, R> {
    ghost use Rattle.gsm_outside.specs.Real.{output_faults};

    /// Writes nothing yet.
    pub fn new(rt: &'a R) -> StdSink<'a, R>
        ensures { output_faults result ≡ 0 }
    {
        StdSink { rt, faults: 0 }
    }
}

impl<'a, R: Print> Sink for StdSink<'a, R> {
    ghost use Rattle.gsm_outside.specs.Real.{output_faults};

    ghost written = { λ _. None };

    ghost faults = { output_faults };

    fn put(&mut self, piece: &[u8]) -> Result<(), OutFault>
        ensures only { IsOkUnless result OutFault.Failed }
        ensures faults { output_faults self.new ≡ count_after (output_faults self.old) result }
    {
        match write_whole(&mut io::writer(self.rt), piece) {
            Ok(()) => Ok(()),
            Err(_) => Err(count_fault(&mut self.faults)),
        }
    }
}
