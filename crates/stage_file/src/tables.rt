// Table files.
ghost use Rattle.std.specs.Prelude.{◌≡◌, ◌<◌, ◌-◌, ◌^◌, ◌∷◌, ◌+◌, ◌||◌, false, true, List, [], Some, length, map, take, position, slice_index_or, IfSome, IfOk, MatchOption, All};
ghost use Rattle.std.specs.List.{list_any};
ghost use Rattle.std.specs.Str.{bytes_eq};
ghost use Rattle.service_model.specs.Search.{first_of, first_below};
ghost use Rattle.stage_file.specs.Records.{AreCountable};
ghost use Rattle.stage_file.specs.Seen.{seen_as, all_seen, AreShort};
ghost use Rattle.stage_file.specs.Names.{name_in, names_in};
ghost use Rattle.stage_file.specs.Fields.{is_no_number, is_past, number_or};
ghost use Rattle.stage_file.specs.Tables.{fails_as_entry, table_field_rules, entry_rules, table_place_rules, table_rules, table_fault_at, table_row_of, entries_in, table_file_fault, table_rows_of, AreTableRows};
ghost use Rattle.stage_file.specs.Faults.{fault_of, Reads};

use crate::field::{is_bad_name, is_kept_name, is_no_number};
use crate::header::header_fault;
use crate::limits::{MAX_ENTRIES, MAX_EXCESS, MAX_TABLES};
use crate::place::{fails_if, is_full, is_twice, text_fault};
use crate::record::{Record, below_header, field_in, records_of};
use crate::rules::{FIELD_COUNT, NAME, NUMBER, RANGE, TABLE_NAME, TOO_MANY, TWICE};
use crate::{FileFault, FileKind, Names, ReadFault, Rows, Text};
use gsm_nums::read_whole;
use service_model::List;
use std::alloc::Global;

/// A record of a table file: the stock that covers each time, from 0 on, in units.
#[derive(Drop)]
pub struct TableRow {
    pub name: Text,
    pub entries: List<u64>,
    /// The number of the record, from 1 on, the header counted.
    pub row: u32,
}

/// The tables of a table file, or its first failing rule.
#[tactic(auto, using(crate::proofs::TableLimits::read_within))]
pub fn read_tables(alloc: Global, rows: &Rows) -> Result<List<TableRow>, ReadFault>
    requires { AreCountable rows.now }
    ensures value { Reads (table_file_fault rows.now) (table_rows_of rows.now) result }
    ensures within { IfOk result AreTableRows }
{
    tables_in(alloc, rows)
}

fn tables_in(alloc: Global, rows: &Rows) -> Result<List<TableRow>, ReadFault>
    requires { AreCountable rows.now }
    ensures { Reads (table_file_fault rows.now) (table_rows_of rows.now) result }
{
    let records = records_of(alloc, rows)?;
    if let Some(fault) = header_fault(FileKind::Tables, b"table", &records) {
        return Err(ReadFault::Fault(fault));
    }
    tables_below(alloc, below_header(&records))
}

fn tables_below(alloc: Global, records: &[Record<'_>]) -> Result<List<TableRow>, ReadFault>
    requires { AreShort records.now }
    ensures { Reads (first_below (table_fault_at (all_seen records.now)) (length (all_seen records.now))) (map table_row_of (all_seen records.now)) result }
{
    let mut names = Names::new(alloc);
    let mut tables = List::new(alloc);
    'records: for k in 0..records.len() {
        let record = records[k];
        tables.push(table_of(alloc, &record, &records[..k], &names)?)?;
        names.push(field_in(record.fields, 1))?;
    }
    Ok(tables)
}

fn table_of(
    alloc: Global,
    record: &Record<'_>,
    earlier: &[Record<'_>],
    names: &Names,
) -> Result<TableRow, ReadFault>
    requires short { length «record».now.fields.now < 2 ^ 32 }
    requires names { names.now ≡ names_in (all_seen earlier.now) }
    ensures value { Reads (first_of (table_rules (all_seen earlier.now) (seen_as «record».now))) (table_row_of (seen_as «record».now)) result }
    ensures new { IfOk result (λ table. list_any (bytes_eq (name_in (seen_as «record».now))) names.now ≡ false) }
{
    if let Some(fault) = field_fault(record) {
        return Err(ReadFault::Fault(fault));
    }
    let entries = entries_of(alloc, record)?;
    if let Some(fault) = place_fault(record, earlier, names) {
        return Err(ReadFault::Fault(fault));
    }
    let name = List::copied(alloc, field_in(record.fields, 1))?;
    Ok(TableRow {
        name,
        entries,
        row: record.number,
    })
}

fn field_fault(record: &Record<'_>) -> Option<FileFault>
    requires { length «record».now.fields.now < 2 ^ 32 }
    ensures { result ≡ first_of (table_field_rules (seen_as «record».now)) }
{
    let number = record.number;
    let count = record.fields.len();
    let name = field_in(record.fields, 1);
    text_fault(FileKind::Tables, record)
        .or_else(|| fails_if(
            FileKind::Tables,
            number,
            FIELD_COUNT,
            0,
            count < 2 || count > MAX_ENTRIES + 1,
        ))
        .or_else(|| fails_if(FileKind::Tables, number, NAME, 1, is_bad_name(name)))
}

fn place_fault(record: &Record<'_>, earlier: &[Record<'_>], names: &Names) -> Option<FileFault>
    requires { names.now ≡ names_in (all_seen earlier.now) }
    ensures { result ≡ first_of (table_place_rules (all_seen earlier.now) (seen_as «record».now)) }
{
    let number = record.number;
    let name = field_in(record.fields, 1);
    let twice = is_twice(record, earlier, names);
    fails_if(
        FileKind::Tables,
        number,
        TOO_MANY,
        0,
        is_full(earlier, MAX_TABLES),
    )
    .or_else(|| fails_if(FileKind::Tables, number, TWICE, 1, twice))
    .or_else(|| fails_if(FileKind::Tables, number, TABLE_NAME, 1, is_kept_name(name)))
}

// The fields behind the name.
fn entries_in<'a>(record: &Record<'a>) -> &'a [Text]
    ensures { result.now ≡ entries_in (seen_as «record».now) }
{
    match record.fields {
        [] => record.fields,
        [_, entries @ ..] => entries,
    }
}

fn entries_of(alloc: Global, record: &Record<'_>) -> Result<List<u64>, ReadFault>
    requires { length «record».now.fields.now < 2 ^ 32 }
    ensures { Reads (first_of (entry_rules (seen_as «record».now))) (map (number_or 0 MAX_EXCESS) (entries_in (seen_as «record».now))) result }
{
    let fields = entries_in(record);
    let mut entries = List::new(alloc);
    'fields: for k in 0..fields.len() {
        let Some(entry) = entry_in(fields[k].as_slice()) else {
            return Err(ReadFault::Fault(entry_fault(record, k)));
        };
        entries.push(entry)?;
    }
    Ok(entries)
}

#[tactic(auto, unfolding(crate::specs::Fields::is_no_number, crate::specs::Fields::is_past, crate::specs::Fields::number_or))]
fn entry_in(field: &[u8]) -> Option<u64>
    ensures { MatchOption result (fails_as_entry field.now ≡ true)
        (λ entry. (entry ≡ number_or 0 MAX_EXCESS field.now) × (is_no_number MAX_EXCESS field.now ≡ false) × (is_past MAX_EXCESS field.now ≡ false)) }
{
    read_whole(field, 0, MAX_EXCESS).ok()
}

// The first rule that fails on the entries, where the entry at a place is the first that gives no number.
#[tactic(auto, using(crate::proofs::TableFacts::number_first, crate::proofs::TableFacts::range_first))]
fn entry_fault(record: &Record<'_>, place: usize) -> FileFault
    requires short { length «record».now.fields.now < 2 ^ 32 }
    requires within { place < length (entries_in (seen_as «record».now)) }
    requires before { All (λ f. is_past MAX_EXCESS f ≡ false) (take place (entries_in (seen_as «record».now))) }
    requires fails { fails_as_entry (slice_index_or (entries_in (seen_as «record».now)) place []) ≡ true }
    ensures { first_of (entry_rules (seen_as «record».now)) ≡ Some result }
{
    match no_number_place(entries_in(record)) {
        Some(other) => fault_at(record, NUMBER, other),
        None => fault_at(record, RANGE, place),
    }
}

fn fault_at(record: &Record<'_>, rule: u8, place: usize) -> FileFault
    requires { place + 2 < 2 ^ 32 }
    ensures { result ≡ fault_of FileKind.Tables «record».now.number rule (2 + place) }
{
    FileFault {
        file: FileKind::Tables,
        row: record.number,
        rule,
        column: 2 + place as u32,
    }
}

fn no_number_place(fields: &[Text]) -> Option<usize>
    ensures value { result ≡ position (is_no_number MAX_EXCESS) fields.now }
    ensures within { IfSome result (λ k. k < length fields.now) }
{
    fields
        .iter()
        .position(|field| is_no_number(MAX_EXCESS, field.as_slice()))
}
