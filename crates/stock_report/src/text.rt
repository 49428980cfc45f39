// Rows as lines of text.
ghost use Rattle.std.specs.Prelude.{◌≡◌, ◌++◌, ◌∷◌, [], IfOk, map};
ghost use Rattle.std.specs.Fmt.{decimal};
ghost use Rattle.csv.specs.Records.{fields_of};
ghost use Rattle.csv.specs.Writing.{row_text, default_writer};
ghost use Rattle.stock_report.specs.Lines.{lines_of};

use csv::{ByteRecord, WriterBuilder};
use service_model::{List, NoMemory};
use stage_file::{Row, Text};
use std::alloc::Global;

/// The lines of these rows, as `csv` writes them.
#[tactic(auto, unfolding(crate::specs::Lines::lines_of))]
pub fn text_of(alloc: Global, rows: &[Row]) -> Result<Text, NoMemory>
    ensures { IfOk result (λ text. text ≡ lines_of rows.now) }
{
    let mut text = Vec::new(alloc);
    'rows: for row in rows {
        let line = line_of(alloc, row.as_slice())?;
        text.extend_from_slice(&line)?;
    }
    Ok(List::from_vec(text))
}

/// The line of a single row.
pub fn text_of_row(alloc: Global, row: Row) -> Result<Text, NoMemory>
    ensures { IfOk result (λ text. text ≡ lines_of (row ∷ [])) }
{
    let mut rows = List::new(alloc);
    rows.push(row)?;
    text_of(alloc, rows.as_slice())
}

// The line of one row.
fn line_of(alloc: Global, row: &[Text]) -> Result<Vec<u8>, NoMemory>
    ensures { IfOk result (λ line. line.items ≡ row_text default_writer row.now) }
{
    let record = record_of(alloc, row)?;
    let mut writer = WriterBuilder::new().from_writer(Vec::new(alloc));
    let Ok(()) = writer.write_byte_record(&record) else {
        return Err(NoMemory);
    };
    match writer.into_inner() {
        Ok(line) => Ok(line),
        Err(_) => Err(NoMemory),
    }
}

// A row as a record of `csv`.
fn record_of(alloc: Global, row: &[Text]) -> Result<ByteRecord, NoMemory>
    ensures { IfOk result (λ r. fields_of r ≡ row.now) }
{
    let mut record = ByteRecord::new(alloc);
    'fields: for field in row {
        record.push_field(field.as_slice())?;
    }
    Ok(record)
}

/// A number as its digits.
pub fn number(alloc: Global, value: u64) -> Result<Text, NoMemory>
    ensures { IfOk result (λ text. text ≡ decimal value) }
{
    let mut buffer = itoa::Buffer::new();
    List::copied(alloc, buffer.format(value).as_bytes())
}

/// A text with a number behind it.
pub fn numbered(alloc: Global, text: &[u8], value: u64) -> Result<Text, NoMemory>
    ensures { IfOk result (λ whole. whole ≡ text.now ++ decimal value) }
{
    let mut buffer = itoa::Buffer::new();
    let mut whole = Vec::from_slice(alloc, text)?;
    whole.extend_from_slice(buffer.format(value).as_bytes())?;
    Ok(List::from_vec(whole))
}

/// A row of fixed words.
pub fn row_of(alloc: Global, words: &[&str]) -> Result<Row, NoMemory>
    ensures { IfOk result (λ row. row ≡ map (λ w. w.now) words.now) }
{
    let mut row = List::new(alloc);
    'words: for word in words {
        row.push(List::copied(alloc, word.as_bytes())?)?;
    }
    Ok(row)
}
