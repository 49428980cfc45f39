// Arc files.
ghost use Rattle.std.specs.Prelude.{◌≡◌, ◌≢◌, ◌<◌, ◌-◌, ◌^◌, length, map, unwrap_or, IfOk, AllPairs};
ghost use Rattle.service_model.specs.Search.{first_of, first_below};
ghost use Rattle.stage_file.specs.Records.{AreCountable, field_in};
ghost use Rattle.stage_file.specs.Seen.{seen_as, all_seen, AreShort};
ghost use Rattle.stage_file.specs.Arcs.{place_of, arc_field_rules, arc_end_rules, arc_rules, arc_fault_at, arc_row_of, arc_file_fault, arc_rows_of, names_of, AreArcRows};
ghost use Rattle.stage_file.specs.Ends.{is_among, ends_in, HaveEnds};
ghost use Rattle.stage_file.specs.Faults.{fails_if, Reads};

use crate::ends::{AllEnds, Ends, ends_in};
use crate::field::{is_misread, is_past, number_or};
use crate::header::header_fault;
use crate::limits::MAX_QUANTITY;
use crate::place::{fails_if, is_full, text_fault};
use crate::record::{Record, below_header, field_in, records_of};
use crate::rules::{ARC_TWICE, CUSTOMER, FIELD_COUNT, NUMBER, RANGE, SELF_ARC, SUPPLIER, TOO_MANY};
use crate::stage_names::{is_no_stage, names_of};
use crate::{FileFault, FileKind, Names, ReadFault, Rows, StageRow, Text};
use service_model::{List, MAX_ARCS};
use std::alloc::Global;

/// A record of an arc file, its blanks filled. Supplier and customer are numbers of stages, from 0 on.
#[derive(Clone, Copy, Debug, PartialEq, Eq)]
pub struct ArcRow {
    pub supplier: u32,
    pub customer: u32,
    /// How many of the supplier's units one unit of the customer's takes.
    pub quantity: u16,
    /// How many periods a unit is on its way; 0 in this version.
    pub transit: u16,
    /// The number of the record, from 1 on, the header counted.
    pub row: u32,
}

/// The arcs of an arc file, or its first failing rule.
pub fn read_arcs(
    alloc: Global,
    rows: &Rows,
    stages: &List<StageRow>,
) -> Result<List<ArcRow>, ReadFault>
    requires countable { AreCountable rows.now }
    requires few { length stages.now < 2 ^ 32 }
    requires distinct { AllPairs (λ s t. s.name ≢ t.name) stages.now }
    ensures value { Reads (arc_file_fault (names_of stages.now) rows.now) (arc_rows_of (names_of stages.now) rows.now) result }
    ensures within { IfOk result (AreArcRows (length stages.now)) }
{
    let names = names_of(alloc, stages)?;
    arcs_in(alloc, rows, &names)
}

fn arcs_in(alloc: Global, rows: &Rows, names: &Names) -> Result<List<ArcRow>, ReadFault>
    requires countable { AreCountable rows.now }
    requires few { length names.now < 2 ^ 32 }
    ensures { Reads (arc_file_fault names.now rows.now) (arc_rows_of names.now rows.now) result }
{
    let records = records_of(alloc, rows)?;
    if let Some(fault) = header_fault(FileKind::Arcs, b"supplier", &records) {
        return Err(ReadFault::Fault(fault));
    }
    arcs_below(alloc, names, below_header(&records))
}

fn arcs_below(
    alloc: Global,
    names: &Names,
    records: &[Record<'_>],
) -> Result<List<ArcRow>, ReadFault>
    requires few { length names.now < 2 ^ 32 }
    requires short { AreShort records.now }
    ensures { Reads (first_below (arc_fault_at names.now (all_seen records.now)) (length (all_seen records.now))) (map (arc_row_of names.now) (all_seen records.now)) result }
{
    let mut ends = AllEnds::new(alloc);
    let mut arcs = List::new(alloc);
    'records: for k in 0..records.len() {
        let record = records[k];
        let arc = arc_of(&record, names, &records[..k], &ends)?;
        ends.push(Ends {
            supplier: arc.supplier,
            customer: arc.customer,
        })?;
        arcs.push(arc)?;
    }
    Ok(arcs)
}

#[tactic(auto, unfolding(crate::specs::Arcs::arc_row_of))]
fn arc_of(
    record: &Record<'_>,
    names: &Names,
    earlier: &[Record<'_>],
    ends: &AllEnds,
) -> Result<ArcRow, ReadFault>
    requires short { length «record».now.fields.now < 2 ^ 32 }
    requires few { length names.now < 2 ^ 32 }
    requires ends { HaveEnds names.now (all_seen earlier.now) ends.now }
    ensures { Reads (first_of (arc_rules names.now (all_seen earlier.now) (seen_as «record».now))) (arc_row_of names.now (seen_as «record».now)) result }
{
    if let Some(fault) = field_fault(record) {
        return Err(ReadFault::Fault(fault));
    }
    if let Some(fault) = end_fault(record, names, earlier, ends) {
        return Err(ReadFault::Fault(fault));
    }
    Ok(ArcRow {
        supplier: stage_in(names, record.fields, 1),
        customer: stage_in(names, record.fields, 2),
        quantity: number_or(1, MAX_QUANTITY, field_in(record.fields, 3)) as u16,
        transit: 0,
        row: record.number,
    })
}

// The number of the stage that a field names; 0 where it names none.
fn stage_in(names: &Names, fields: &[Text], column: usize) -> u32
    requires few { length names.now < 2 ^ 32 }
    requires column { 0 < column }
    ensures { result ≡ unwrap_or (place_of names.now (field_in fields.now column)) 0 }
{
    match names.place_of(field_in(fields, column)) {
        Some(stage) => stage as u32,
        None => 0,
    }
}

fn field_fault(record: &Record<'_>) -> Option<FileFault>
    requires { length «record».now.fields.now < 2 ^ 32 }
    ensures { result ≡ first_of (arc_field_rules (seen_as «record».now)) }
{
    let number = record.number;
    let count = record.fields.len();
    let quantity = field_in(record.fields, 3);
    text_fault(FileKind::Arcs, record)
        .or_else(|| fails(number, FIELD_COUNT, 0, count < 2 || count > 3))
        .or_else(|| fails(number, NUMBER, 3, is_misread(MAX_QUANTITY, quantity)))
        .or_else(|| fails(number, RANGE, 3, is_past(MAX_QUANTITY, quantity)))
}

fn end_fault(
    record: &Record<'_>,
    names: &Names,
    earlier: &[Record<'_>],
    ends: &AllEnds,
) -> Option<FileFault>
    requires few { length names.now < 2 ^ 32 }
    requires ends { HaveEnds names.now (all_seen earlier.now) ends.now }
    ensures { result ≡ first_of (arc_end_rules names.now (all_seen earlier.now) (seen_as «record».now)) }
{
    let number = record.number;
    let full = is_full(earlier, MAX_ARCS);
    let supplier = field_in(record.fields, 1);
    let customer = field_in(record.fields, 2);
    let no_supplier = is_no_stage(names, supplier);
    let no_customer = is_no_stage(names, customer);
    let twice = is_among(ends_in(names, record.fields), ends);
    fails(number, TOO_MANY, 0, full)
        .or_else(|| fails(number, SUPPLIER, 1, no_supplier))
        .or_else(|| fails(number, CUSTOMER, 2, no_customer))
        .or_else(|| fails(number, SELF_ARC, 2, supplier == customer))
        .or_else(|| fails(number, ARC_TWICE, 2, twice))
}

fn fails(row: u32, rule: u8, column: u32, fails: bool) -> Option<FileFault>
    ensures { result ≡ fails_if FileKind.Arcs row rule column fails }
{
    fails_if(FileKind::Arcs, row, rule, column, fails)
}

fn is_among(ends: Option<Ends>, all: &AllEnds) -> bool
    ensures { result ≡ is_among ends all.now }
{
    match ends {
        Some(ends) => all.has(ends),
        None => false,
    }
}
