// Plan files.
ghost use Rattle.std.specs.Prelude.{◌≡◌, ◌≢◌, ◌<◌, ◌≤◌, ◌-◌, ◌^◌, true, length, Some, is_none, AllPairs};
ghost use Rattle.std.specs.List.{list_any};
ghost use Rattle.service_model.specs.Search.{first_of, first_below};
ghost use Rattle.stage_file.specs.Records.{AreCountable, field_in};
ghost use Rattle.stage_file.specs.Seen.{seen_as, all_seen, AreShort};
ghost use Rattle.stage_file.specs.Arcs.{place_of, names_of};
ghost use Rattle.stage_file.specs.PlanRecords.{plan_rules, plan_fault_at, plan_file_fault, plan_of};
ghost use Rattle.stage_file.specs.PlanTimes.{times_in, all_times, is_refused, put_at, plan_with};
ghost use Rattle.stage_file.specs.Names.{name_in};
ghost use Rattle.stage_file.specs.Faults.{fails_if, Reads};

use crate::field::{is_no_number, is_past, number_or};
use crate::header::header_fault;
use crate::place::{fails_if, text_fault};
use crate::record::{Record, below_header, field_in, records_of};
use crate::rules::{FIELD_COUNT, NUMBER, PLAN_MISSING, PLAN_STAGE, RANGE};
use crate::stage_names::names_of;
use crate::stage_rules::TIME;
use crate::{FileFault, FileKind, Names, ReadFault, Rows, StageRow, Text};
use service_model::{List, Plan};
use std::alloc::Global;

/// The times of a stage in a plan.
#[derive(Clone, Copy)]
struct Times {
    inbound: u16,
    outbound: u16,
}

/// The plan of a plan file, in the order of the stages, or the first failing rule.
pub fn read_plan(alloc: Global, rows: &Rows, stages: &List<StageRow>) -> Result<Plan, ReadFault>
    requires countable { AreCountable rows.now }
    requires few { length stages.now < 2 ^ 32 }
    requires distinct { AllPairs (λ s t. s.name ≢ t.name) stages.now }
    ensures value { Reads (plan_file_fault (names_of stages.now) rows.now) (plan_of (names_of stages.now) rows.now) result }
{
    let names = names_of(alloc, stages)?;
    plan_in(alloc, rows, &names)
}

fn plan_in(alloc: Global, rows: &Rows, names: &Names) -> Result<Plan, ReadFault>
    requires countable { AreCountable rows.now }
    ensures { Reads (plan_file_fault names.now rows.now) (plan_of names.now rows.now) result }
{
    let records = records_of(alloc, rows)?;
    if let Some(fault) = header_fault(FileKind::Plan, b"stage", &records) {
        return Err(ReadFault::Fault(fault));
    }
    let times = times_below(alloc, names, below_header(&records))?;
    plan_with(alloc, &times)
}

// The times of the stages, as far as records have them.
fn times_below(
    alloc: Global,
    names: &Names,
    records: &[Record<'_>],
) -> Result<List<Option<Times>>, ReadFault>
    requires { AreShort records.now }
    ensures { Reads (first_below (plan_fault_at names.now (all_seen records.now)) (length (all_seen records.now))) (all_times names.now (all_seen records.now)) result }
{
    let mut times = List::from_vec(vec![in alloc; None; names.len()]?);
    'records: for k in 0..records.len() {
        let record = records[k];
        if let Some(fault) = plan_fault(&record, names, &records[..k], &times) {
            return Err(ReadFault::Fault(fault));
        }
        put_times(&mut times, names, record.fields);
    }
    Ok(times)
}

fn plan_fault(
    record: &Record<'_>,
    names: &Names,
    earlier: &[Record<'_>],
    times: &List<Option<Times>>,
) -> Option<FileFault>
    requires short { length «record».now.fields.now < 2 ^ 32 }
    requires times { times.now ≡ all_times names.now (all_seen earlier.now) }
    ensures { result ≡ first_of (plan_rules names.now (all_seen earlier.now) (seen_as «record».now)) }
{
    let number = record.number;
    let count = record.fields.len();
    let inbound = field_in(record.fields, 2);
    let outbound = field_in(record.fields, 3);
    let refused = is_refused(field_in(record.fields, 1), names, times);
    text_fault(FileKind::Plan, record)
        .or_else(|| fails(number, FIELD_COUNT, 0, count < 3))
        .or_else(|| fails(number, NUMBER, 2, is_no_number(TIME, inbound)))
        .or_else(|| fails(number, NUMBER, 3, is_no_number(TIME, outbound)))
        .or_else(|| fails(number, RANGE, 2, is_past(TIME, inbound)))
        .or_else(|| fails(number, RANGE, 3, is_past(TIME, outbound)))
        .or_else(|| fails(number, PLAN_STAGE, 1, refused))
}

fn fails(row: u32, rule: u8, column: u32, fails: bool) -> Option<FileFault>
    ensures { result ≡ fails_if FileKind.Plan row rule column fails }
{
    fails_if(FileKind::Plan, row, rule, column, fails)
}

// Whether the name is no stage's, or its stage has times already.
fn is_refused(name: &[u8], names: &Names, times: &List<Option<Times>>) -> bool
    requires { length times.now ≡ length names.now }
    ensures { result ≡ is_refused (place_of names.now name.now) times.now }
{
    match names.place_of(name) {
        Some(stage) => times.get(stage).is_some(),
        None => true,
    }
}

fn put_times(times: &mut List<Option<Times>>, names: &Names, fields: &[Text])
    requires { length times.old ≡ length names.now }
    ensures { times.new ≡ put_at (place_of names.now (field_in fields.now 1)) (times_in fields.now) times.old }
{
    if let Some(stage) = names.place_of(field_in(fields, 1)) {
        times.set(stage, Some(times_in(fields)));
    }
}

#[tactic(auto, unfolding(crate::specs::PlanTimes::times_in))]
fn times_in(fields: &[Text]) -> Times
    ensures { result ≡ times_in fields.now }
{
    Times {
        inbound: number_or(0, TIME, field_in(fields, 2)) as u16,
        outbound: number_or(0, TIME, field_in(fields, 3)) as u16,
    }
}

// The plan with these times, if no stage lacks them.
fn plan_with(alloc: Global, times: &List<Option<Times>>) -> Result<Plan, ReadFault>
    ensures { Reads (fails_if FileKind.Plan 0 PLAN_MISSING 0 (list_any is_none times.now)) (plan_with times.now) result }
{
    let mut inbound = List::new(alloc);
    let mut outbound = List::new(alloc);
    'stages: for k in 0..times.len() {
        let Some(times) = *times.get(k) else {
            return Err(ReadFault::Fault(missing()));
        };
        inbound.push(times.inbound)?;
        outbound.push(times.outbound)?;
    }
    Ok(Plan { inbound, outbound })
}

#[tactic(auto, unfolding(crate::specs::Faults::fails_if))]
fn missing() -> FileFault
    ensures { fails_if FileKind.Plan 0 PLAN_MISSING 0 true ≡ Some result }
{
    FileFault {
        file: FileKind::Plan,
        row: 0,
        rule: PLAN_MISSING,
        column: 0,
    }
}
