// Rows of comma-separated fields, as `csv` reads them.
ghost use Rattle.std.specs.Prelude.{◌≡◌, ◌≤◌, ◌+◌, ◌-◌, length, IfOk, All};
ghost use Rattle.std.specs.List.{suffix_len};
ghost use Rattle.csv.specs.Records.{fields_of};
ghost use Rattle.stage_file.specs.Rows.{is_blank, without_blank_end, rows_of_bytes};

use csv::{ByteRecord, ReaderBuilder};
use service_model::{List, NoMemory};
use std::alloc::Global;

/// A text, as its bytes.
pub type Text = List<u8>;

/// A record, as its fields.
pub type Row = List<Text>;

/// The records of a file; a record with nothing in it is an empty row.
pub type Rows = List<Row>;

/// The rows of a file. The rules that `csv` reads by are in docs/FORMATS.md.
pub fn rows_of(alloc: Global, bytes: &[u8]) -> Result<Rows, NoMemory>
    ensures value { IfOk result (λ rows. rows ≡ rows_of_bytes bytes.now) }
    ensures few_rows { IfOk result (λ rows. length rows ≤ length bytes.now + 1) }
    ensures short_rows { IfOk result (λ rows. All (λ row. length row ≤ length bytes.now + 1) rows) }
{
    let reader = ReaderBuilder::new()
        .has_headers(false)
        .flexible(true)
        .from_reader(alloc, bytes);
    let mut rows = List::new(alloc);
    'records: for record in reader.into_byte_records() {
        // A slice is read to its end without fail, so an error here is want of memory.
        let Ok(record) = record else {
            return Err(NoMemory);
        };
        rows.push(row_of(alloc, &record)?)?;
    }
    Ok(rows)
}

#[tactic(auto, unfolding(crate::specs::Rows::without_blank_end))]
fn row_of(alloc: Global, read: &ByteRecord) -> Result<Row, NoMemory>
    ensures { IfOk result (λ row. row ≡ without_blank_end (fields_of read.now)) }
{
    let mut fields = fields_of(alloc, read)?;
    let kept = kept_len(&fields);
    fields.truncate(kept);
    Ok(List::from_vec(fields))
}

fn fields_of(alloc: Global, read: &ByteRecord) -> Result<Vec<Text>, NoMemory>
    ensures { IfOk result (λ fields. fields.items ≡ fields_of read.now) }
{
    let mut fields = Vec::new(alloc);
    'fields: for place in 0..read.len() {
        let Some(field) = read.get(place) else {
            return Err(NoMemory);
        };
        fields.push(List::copied(alloc, field)?)?;
    }
    Ok(fields)
}

// How many fields are left where the blank ones at the end are dropped.
pub(crate) fn kept_len(fields: &[Text]) -> usize
    ensures value { result ≡ length fields.now - suffix_len is_blank fields.now }
    ensures within { result ≤ length fields.now }
{
    let mut kept = fields.len();
    'fields: while kept > 0 && is_blank(fields[kept - 1].as_slice()) {
        kept -= 1;
    }
    kept
}

pub(crate) fn is_blank(field: &[u8]) -> bool
    ensures { result ≡ is_blank field.now }
{
    field.iter().all(|byte| *byte == b' ')
}
