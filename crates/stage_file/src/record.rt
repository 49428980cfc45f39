// The records of rows.
ghost use Rattle.std.specs.Prelude.{◌≡◌, ◌<◌, ◌-◌, ◌^◌, ◌++◌, length, IfOk, OnOk, All};
ghost use Rattle.stage_file.specs.Records.{AreCountable, records_of, kept_at, below_header, field_in};
ghost use Rattle.stage_file.specs.Seen.{all_seen, AreShort};

use crate::rows::kept_len;
use crate::{Rows, Text};
use service_model::NoMemory;
use std::alloc::Global;

/// A row with something in it, without the blank fields at its end, and its number from 1 on.
#[derive(Clone, Copy)]
pub struct Record<'a> {
    pub number: u32,
    pub fields: &'a [Text],
}

/// The rows with something in them.
#[tactic(auto, using(crate::proofs::RecordFacts::numbered_more, crate::proofs::RecordFacts::numbered_done))]
pub fn records_of<'a>(alloc: Global, rows: &'a Rows) -> Result<Vec<Record<'a>>, NoMemory>
    requires { AreCountable rows.now }
    ensures value { IfOk result (λ records. all_seen records.items ≡ records_of rows.now) }
    ensures some { IfOk result (λ records. All (λ r. 0 < length r.fields.now) records.items) }
    ensures short { IfOk result (λ records. AreShort records.items) }
{
    let mut records = Vec::new(alloc);
    'rows: for k in 0..rows.len() {
        keep(&mut records, k as u32 + 1, rows.get(k).as_slice())?;
    }
    Ok(records)
}

// Keeps a row if there is something in it.
#[tactic(auto, unfolding(crate::specs::Records::kept_at, crate::specs::Rows::without_blank_end))]
fn keep<'a>(records: &mut Vec<Record<'a>>, number: u32, row: &'a [Text]) -> Result<(), NoMemory>
    requires { length row.now < 2 ^ 32 }
    ensures value { OnOk result (all_seen records.new.items ≡ all_seen records.old.items ++ kept_at number row.now) }
    ensures some { OnOk result (All (λ r. 0 < length r.fields.now) records.old.items → All (λ r. 0 < length r.fields.now) records.new.items) }
    ensures short { OnOk result (AreShort records.old.items → AreShort records.new.items) }
{
    let fields = &row[..kept_len(row)];
    if !fields.is_empty() {
        records.push(Record { number, fields })?;
    }
    Ok(())
}

/// The records behind the header.
pub fn below_header<'a>(records: &'a [Record<'a>]) -> &'a [Record<'a>]
    ensures value { all_seen result.now ≡ below_header (all_seen records.now) }
    ensures short { AreShort records.now → AreShort result.now }
{
    match records {
        [] => records,
        [_, below @ ..] => below,
    }
}

/// The field of a column, from 1 on; nothing where there is none.
pub fn field_in<'a>(fields: &'a [Text], column: usize) -> &'a [u8]
    requires { 0 < column }
    ensures { result.now ≡ field_in fields.now column }
{
    match fields.get(column - 1) {
        Some(field) => field.as_slice(),
        None => &[],
    }
}
