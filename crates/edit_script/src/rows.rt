// Rows with one of them put behind the others, in the place of another, or taken out.
ghost use Rattle.std.specs.Prelude.{◌≡◌, ◌-◌, ◌≤◌, ◌<◌, length, map, slice_set, IfOk, IfSome};
ghost use Rattle.std.specs.List.{list_any};
ghost use Rattle.edit_script.specs.Names.{is_of, place_of};
ghost use Rattle.edit_script.specs.Edited.{holds_record, appended, replaced, dropped, changed, row_at, Gives};

use crate::ApplyFault;
use crate::copies::{copied_row, copied_rows};
use crate::fields::kept;
use crate::names::{Name, place_of};
use service_model::{List, NoMemory};
use stage_file::{Row, Rows, Text};
use std::alloc::Global;

/// A copy of rows with a header, and a row at their end.
pub fn appended(alloc: Global, header: &[&str], row: &Row, rows: &Rows) -> Result<Rows, NoMemory>
    ensures { IfOk result (λ all. all ≡ appended (map (λ w. w.now) header.now) row.now rows.now) }
{
    let mut all = copied_rows(alloc, rows.as_slice())?;
    if !has_records(rows.as_slice()) {
        all.push(header_row(alloc, header)?)?;
    }
    all.push(copied_row(alloc, row.as_slice())?)?;
    Ok(all)
}

// Whether some row holds a record.
fn has_records(rows: &[Row]) -> bool
    ensures { result ≡ list_any holds_record rows.now }
{
    rows.iter().any(holds_record)
}

/// Whether a row holds a record; one that holds none is passed over.
pub fn holds_record(row: &Row) -> bool
    ensures { result ≡ holds_record row.now }
{
    !kept(row.as_slice()).is_empty()
}

// A header of fixed words.
fn header_row(alloc: Global, words: &[&str]) -> Result<Row, NoMemory>
    ensures { IfOk result (λ row. row ≡ map (λ w. w.now) words.now) }
{
    let mut row = List::new(alloc);
    'words: for word in words {
        row.push(List::copied(alloc, word.as_bytes())?)?;
    }
    Ok(row)
}

/// A copy of rows with a row in the place of the first record of a name.
pub fn replaced(alloc: Global, name: &Name<'_>, row: &Row, rows: &Rows) -> Result<Rows, ApplyFault>
    ensures { Gives (replaced (is_of name.now) row.now rows.now) result }
{
    let Some(place) = place_of(rows, name) else {
        return Err(ApplyFault::Unknown);
    };
    let row = copied_row(alloc, row.as_slice())?;
    Ok(put_at(alloc, place, row, rows)?)
}

// A copy of rows with a row in the place of another.
fn put_at(alloc: Global, place: usize, row: Row, rows: &Rows) -> Result<Rows, NoMemory>
    requires { place < length rows.now }
    ensures { IfOk result (λ all. all ≡ slice_set rows.now place row) }
{
    let mut all = copied_rows(alloc, rows.as_slice())?;
    all.set(place, row);
    Ok(all)
}

/// A copy of rows without the first record of a name.
pub fn dropped(alloc: Global, name: &Name<'_>, rows: &Rows) -> Result<Rows, ApplyFault>
    ensures { Gives (dropped (is_of name.now) rows.now) result }
{
    let Some(place) = place_of(rows, name) else {
        return Err(ApplyFault::Unknown);
    };
    let mut all = copied_rows(alloc, rows.as_slice())?.into_vec();
    let _ = all.remove(place);
    Ok(List::from_vec(all))
}

/// A copy of rows with a value in a column of the first record of a name.
pub fn changed(
    alloc: Global,
    name: &Name<'_>,
    column: usize,
    value: &Text,
    rows: &Rows,
) -> Result<Rows, ApplyFault>
    requires some { 1 ≤ column }
    requires there { IfSome (place_of (is_of name.now) rows.now) (λ k. column ≤ length (row_at rows.now k)) }
    ensures { Gives (changed (is_of name.now) column value.now rows.now) result }
{
    let Some(place) = place_of(rows, name) else {
        return Err(ApplyFault::Unknown);
    };
    let mut row = copied_row(alloc, rows.get(place).as_slice())?;
    row.set(column - 1, List::copied(alloc, value.as_slice())?);
    Ok(put_at(alloc, place, row, rows)?)
}
