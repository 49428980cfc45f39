// Reading the files of a request.
ghost use Rattle.std.specs.Prelude.{◌≡◌, ◌≤◌};
ghost use Rattle.command_words.specs.Commands.{further_file};
ghost use Rattle.command_words.specs.Requests.{request_as};
ghost use Rattle.request_files.specs.Lengths.{limit_of};
ghost use Rattle.request_files.specs.Contents.{FilesCase, FurtherCase, unread_of};

use crate::contents::Contents;
use crate::fetch::read_file;
use crate::unread::{ReadStop, Unread};
use command_words::{FileWord, Request, further_file};
use gsm_outside::Shelf;
use service_model::List;
use stage_file::Text;
use std::alloc::Global;

/// The most bytes of a stage, table, arc, script or plan file.
pub const FILE_LIMIT: u64 = 16_777_216;

/// The most bytes of a certificate.
pub const CERT_LIMIT: u64 = 2_147_483_648;

/// Reads the files in turn, up to the first that is not read.
pub fn read_files<S: Shelf>(
    alloc: Global,
    shelf: &mut S,
    request: &Request<'_>,
) -> Result<Contents, Unread>
    ensures case { FilesCase (request_as request.now) (S.held shelf.old) (S.read_faults shelf.old) (S.read_faults shelf.new) result }
    ensures held { S.held shelf.new ≡ S.held shelf.old }
    ensures writes { S.write_faults shelf.new ≡ S.write_faults shelf.old }
{
    let stages = match read_file(alloc, shelf, request.stages, FILE_LIMIT) {
        Ok(bytes) => bytes,
        Err(stop) => return Err(unread_of(FileWord::Stages, stop)),
    };
    let tables = match read_file(alloc, shelf, request.tables, FILE_LIMIT) {
        Ok(bytes) => bytes,
        Err(stop) => return Err(unread_of(FileWord::Tables, stop)),
    };
    let arcs = match read_file(alloc, shelf, request.arcs, FILE_LIMIT) {
        Ok(bytes) => bytes,
        Err(stop) => return Err(unread_of(FileWord::Arcs, stop)),
    };
    match read_further(alloc, shelf, further_file(request.command), request.further) {
        Ok(further) => Ok(Contents {
            stages,
            tables,
            arcs,
            further,
        }),
        Err(unread) => Err(unread),
    }
}

// Reads the command's further file, if it has one.
fn read_further<S: Shelf>(
    alloc: Global,
    shelf: &mut S,
    file: Option<FileWord>,
    name: &str,
) -> Result<Text, Unread>
    ensures case { FurtherCase file (S.held shelf.old) name.now (S.read_faults shelf.old) (S.read_faults shelf.new) result }
    ensures held { S.held shelf.new ≡ S.held shelf.old }
    ensures writes { S.write_faults shelf.new ≡ S.write_faults shelf.old }
{
    let Some(file) = file else {
        return Ok(List::new(alloc));
    };
    match read_file(alloc, shelf, name, limit_of(file)) {
        Ok(bytes) => Ok(bytes),
        Err(stop) => Err(unread_of(file, stop)),
    }
}

// The most bytes of a file.
fn limit_of(file: FileWord) -> u64
    ensures value { result ≡ limit_of file }
    ensures within { result ≤ CERT_LIMIT }
{
    match file {
        FileWord::Stages | FileWord::Tables | FileWord::Arcs => FILE_LIMIT,
        FileWord::Script | FileWord::Plan => FILE_LIMIT,
        FileWord::Cert => CERT_LIMIT,
    }
}

fn unread_of(file: FileWord, stop: ReadStop) -> Unread
    ensures { result ≡ unread_of file stop }
{
    match stop {
        ReadStop::Fault => Unread::Fault(file),
        ReadStop::TooLong => Unread::TooLong(file),
        ReadStop::NoMemory => Unread::NoMemory,
    }
}
