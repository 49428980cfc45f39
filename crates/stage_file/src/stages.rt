// Stage files.
ghost use Rattle.std.specs.Prelude.{◌≡◌, ◌≤◌, ◌<◌, ◌-◌, ◌^◌, false, length, map, IfOk};
ghost use Rattle.service_model.specs.declared.limits.TheConstants.{MAX_HORIZON};
ghost use Rattle.std.specs.List.{list_any};
ghost use Rattle.std.specs.Str.{bytes_eq};
ghost use Rattle.service_model.specs.Search.{first_of, first_below};
ghost use Rattle.stage_file.specs.Names.{name_in, names_in};
ghost use Rattle.stage_file.specs.Records.{AreCountable};
ghost use Rattle.stage_file.specs.Seen.{seen_as, all_seen, AreShort};

use crate::field::{POOL, SUM, factor_in, is_normal, number_or};
use crate::header::header_fault;
use crate::limits::{MAX_FACTOR, MAX_UNIT};
use crate::place::fails_if;
use crate::record::{Record, below_header, field_in, records_of};
use crate::rules::NO_STAGES;
use crate::stage_rules::{TIME, field_fault, place_fault};
use crate::{FileKind, Names, ReadFault, Rows, Text};
use service_model::{List, NoMemory};
use std::alloc::Global;

/// How a stage's demand over a time is bounded.
#[derive(Drop)]
pub enum Bound {
    /// By the table of that name.
    Named(Text),
    /// By a number of standard deviations times the root of the time; the number is their product.
    Normal(u32),
    /// By the sum of its customers' bounds.
    Sum,
    /// By its customers' bounds, pooled as independent.
    Pool,
}

/// A record of a stage file, its blanks filled. Times are whole periods.
#[derive(Drop)]
pub struct StageRow {
    pub name: Text,
    pub lead: u16,
    pub supply: u16,
    pub least: u16,
    /// At most the horizon.
    pub most: u16,
    pub bound: Bound,
    /// The holding cost of one unit of stock, in currency units.
    pub unit: u32,
    /// The number of the record, from 1 on, the header counted.
    pub row: u32,
}

ghost use Rattle.stage_file.specs.Stages.{stage_rules, stage_fault_at, stage_file_fault};
ghost use Rattle.stage_file.specs.StageRecords.{bound_in, stage_row_of, stage_rows_of, AreStageRows};
ghost use Rattle.stage_file.specs.Faults.{Reads};

/// The stages of a stage file, or its first failing rule.
#[tactic(auto, using(crate::proofs::StageLimits::read_within))]
pub fn read_stages(alloc: Global, rows: &Rows, horizon: u16) -> Result<List<StageRow>, ReadFault>
    requires short { horizon ≤ MAX_HORIZON }
    requires countable { AreCountable rows.now }
    ensures value { Reads (stage_file_fault horizon rows.now) (stage_rows_of horizon rows.now) result }
    ensures within { IfOk result (AreStageRows horizon) }
{
    stages_in(alloc, rows, horizon)
}

fn stages_in(alloc: Global, rows: &Rows, horizon: u16) -> Result<List<StageRow>, ReadFault>
    requires short { horizon ≤ MAX_HORIZON }
    requires countable { AreCountable rows.now }
    ensures { Reads (stage_file_fault horizon rows.now) (stage_rows_of horizon rows.now) result }
{
    let records = records_of(alloc, rows)?;
    if let Some(fault) = header_fault(FileKind::Stages, b"stage", &records) {
        return Err(ReadFault::Fault(fault));
    }
    let stages = stages_below(alloc, below_header(&records), horizon)?;
    match fails_if(FileKind::Stages, 0, NO_STAGES, 0, stages.len() == 0) {
        Some(fault) => Err(ReadFault::Fault(fault)),
        None => Ok(stages),
    }
}

fn stages_below(
    alloc: Global,
    records: &[Record<'_>],
    horizon: u16,
) -> Result<List<StageRow>, ReadFault>
    requires short { horizon ≤ MAX_HORIZON }
    requires countable { AreShort records.now }
    ensures { Reads (first_below (stage_fault_at horizon (all_seen records.now)) (length (all_seen records.now))) (map (stage_row_of horizon) (all_seen records.now)) result }
{
    let mut names = Names::new(alloc);
    let mut stages = List::new(alloc);
    'records: for k in 0..records.len() {
        let record = records[k];
        stages.push(stage_of(alloc, &record, &records[..k], &names, horizon)?)?;
        names.push(field_in(record.fields, 1))?;
    }
    Ok(stages)
}

fn stage_of(
    alloc: Global,
    record: &Record<'_>,
    earlier: &[Record<'_>],
    names: &Names,
    horizon: u16,
) -> Result<StageRow, ReadFault>
    requires short { horizon ≤ MAX_HORIZON }
    requires countable { length «record».now.fields.now < 2 ^ 32 }
    requires names { names.now ≡ names_in (all_seen earlier.now) }
    ensures value { Reads (first_of (stage_rules horizon (all_seen earlier.now) (seen_as «record».now))) (stage_row_of horizon (seen_as «record».now)) result }
    ensures new { IfOk result (λ stage. list_any (bytes_eq (name_in (seen_as «record».now))) names.now ≡ false) }
{
    if let Some(fault) = field_fault(record) {
        return Err(ReadFault::Fault(fault));
    }
    if let Some(fault) = place_fault(record, earlier, names, horizon) {
        return Err(ReadFault::Fault(fault));
    }
    Ok(stage_row(alloc, record, horizon)?)
}

// The stage of a record, its blanks filled.
#[tactic(auto, unfolding(crate::specs::StageRecords::stage_row_of))]
fn stage_row(alloc: Global, record: &Record<'_>, horizon: u16) -> Result<StageRow, NoMemory>
    requires { horizon ≤ MAX_HORIZON }
    ensures { IfOk result (λ stage. stage ≡ stage_row_of horizon (seen_as «record».now)) }
{
    let fields = record.fields;
    let most = number_or(horizon as u64, TIME, field_in(fields, 5)) as u16;
    Ok(StageRow {
        name: List::copied(alloc, field_in(fields, 1))?,
        lead: number_or(0, TIME, field_in(fields, 2)) as u16,
        supply: number_or(0, TIME, field_in(fields, 3)) as u16,
        least: number_or(0, TIME, field_in(fields, 4)) as u16,
        most: horizon.min(most),
        bound: bound_of(alloc, field_in(fields, 6))?,
        unit: number_or(0, MAX_UNIT, field_in(fields, 7)) as u32,
        row: record.number,
    })
}

// What a bound's bytes mean.
#[tactic(auto, unfolding(crate::specs::StageRecords::bound_in))]
fn bound_of(alloc: Global, field: &[u8]) -> Result<Bound, NoMemory>
    ensures { IfOk result (λ bound. bound ≡ bound_in field.now) }
{
    if field == SUM {
        Ok(Bound::Sum)
    } else if field == POOL {
        Ok(Bound::Pool)
    } else if is_normal(field) {
        Ok(Bound::Normal(number_or(0, MAX_FACTOR, factor_in(field)) as u32))
    } else {
        Ok(Bound::Named(List::copied(alloc, field)?))
    }
}
