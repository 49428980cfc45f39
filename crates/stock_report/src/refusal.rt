// What is printed where there is no answer.
ghost use Rattle.std.specs.Prelude.{◌≡◌, ◌∷◌, [], ◌++◌, IfOk, OnOk};
ghost use Rattle.std.specs.Fmt.{decimal};
ghost use Rattle.stock_report.specs.Lines.{lines_of};
ghost use Rattle.stock_report.specs.Refusals.{word_row, too_long_row, file_fault_fields, refused_row, fault_row, write_fault_row, kind_text, file_text};

use crate::text::{number, numbered, row_of, text_of_row};
use command_words::{FileWord, WordFault};
use service_model::{List, NoMemory};
use stage_file::{FileFault, FileKind, Row, Text};
use std::alloc::Global;

/// What is printed where a rule on words fails.
pub fn words_text(alloc: Global, fault: WordFault) -> Result<Text, NoMemory>
    ensures { IfOk result (λ text. text ≡ lines_of (word_row fault ∷ [])) }
{
    let mut row = row_of(alloc, &["words"])?;
    row.push(numbered(alloc, b"W", fault.rule as u64)?)?;
    row.push(number(alloc, fault.place)?)?;
    text_of_row(alloc, row)
}

/// What is printed where a file is longer than its limit.
pub fn too_long_text(alloc: Global, file: FileWord) -> Result<Text, NoMemory>
    ensures { IfOk result (λ text. text ≡ lines_of (too_long_row file ∷ [])) }
{
    let row = row_of(alloc, &["too long", file_text(file)])?;
    text_of_row(alloc, row)
}

/// What is printed where a rule on files fails.
pub fn refused_text(alloc: Global, fault: FileFault) -> Result<Text, NoMemory>
    ensures { IfOk result (λ text. text ≡ lines_of (refused_row fault ∷ [])) }
{
    let row = refused_row(alloc, fault)?;
    text_of_row(alloc, row)
}

fn refused_row(alloc: Global, fault: FileFault) -> Result<Row, NoMemory>
    ensures { IfOk result (λ row. row ≡ refused_row fault) }
{
    let mut row = row_of(alloc, &["refused"])?;
    push_file_fault(alloc, fault, &mut row)?;
    Ok(row)
}

/// Puts a rule on files that fails behind a row, with its place.
pub fn push_file_fault(alloc: Global, fault: FileFault, row: &mut Row) -> Result<(), NoMemory>
    ensures { OnOk result (row.new ≡ row.old ++ file_fault_fields fault) }
{
    row.push(numbered(alloc, b"F", fault.rule as u64)?)?;
    row.push(List::copied(alloc, kind_text(fault.file).as_bytes())?)?;
    row.push(number(alloc, fault.row as u64)?)?;
    row.push(number(alloc, fault.column as u64)?)?;
    Ok(())
}

/// What is printed where a file could not be read.
pub fn read_fault_text(alloc: Global, file: FileWord) -> Result<Text, NoMemory>
    ensures { IfOk result (λ text. text ≡ lines_of (fault_row file ∷ [])) }
{
    let row = fault_row(alloc, file)?;
    text_of_row(alloc, row)
}

fn fault_row(alloc: Global, file: FileWord) -> Result<Row, NoMemory>
    ensures { IfOk result (λ row. row ≡ fault_row file) }
{
    row_of(alloc, &["read fault", file_text(file)])
}

/// What is printed where the certificate could not be written.
pub fn write_fault_text(alloc: Global) -> Result<Text, NoMemory>
    ensures { IfOk result (λ text. text ≡ lines_of (write_fault_row ∷ [])) }
{
    let row = write_fault_row(alloc)?;
    text_of_row(alloc, row)
}

fn write_fault_row(alloc: Global) -> Result<Row, NoMemory>
    ensures { IfOk result (λ row. row ≡ write_fault_row) }
{
    row_of(alloc, &["write fault", file_text(FileWord::Cert)])
}

fn kind_text(kind: FileKind) -> &'static str
    ensures { result.now ≡ kind_text kind }
{
    match kind {
        FileKind::Stages => "stages",
        FileKind::Tables => "tables",
        FileKind::Arcs => "arcs",
        FileKind::Plan => "plan",
        FileKind::Words => "words",
    }
}

// The word for a file in printed lines.
fn file_text(file: FileWord) -> &'static str
    ensures { result.now ≡ file_text file }
{
    match file {
        FileWord::Stages => "stages",
        FileWord::Tables => "tables",
        FileWord::Arcs => "arcs",
        FileWord::Script => "script",
        FileWord::Plan => "plan",
        FileWord::Cert => "cert",
    }
}
