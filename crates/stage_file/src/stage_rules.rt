// The rules on a record of a stage file.
ghost use Rattle.std.specs.Prelude.{◌≡◌, ◌≤◌, ◌<◌, ◌-◌, ◌^◌, length, []};
ghost use Rattle.service_model.specs.Search.{first_of};
ghost use Rattle.stage_file.specs.Names.{names_in};
ghost use Rattle.stage_file.specs.Seen.{record_of, seen_as, all_seen};
ghost use Rattle.stage_file.specs.Stages.{stage_fails, has_crossed_limits, stage_numbers, stage_ranges, stage_limits, stage_field_rules, stage_place_rules};

use crate::field::{is_bad_bound, is_bad_name, is_misread, is_no_number, is_past, number_or};
use crate::limits::MAX_UNIT;
use crate::place::{fails_if, is_full, is_twice, text_fault};
use crate::record::{Record, field_in};
use crate::rows::is_blank;
use crate::rules::{
    BOUND, FIELD_COUNT, LIMITS, NAME, NUMBER, PAST_HORIZON, RANGE, TOO_MANY, TWICE,
};
use crate::{FileFault, FileKind, Names, Text};
use service_model::{MAX_STAGES, MAX_TIME};

/// The greatest time.
pub const TIME: u64 = MAX_TIME as u64;

/// The first rule that fails on the fields of a record by themselves.
pub fn field_fault(record: &Record<'_>) -> Option<FileFault>
    requires { length «record».now.fields.now < 2 ^ 32 }
    ensures { result ≡ first_of (stage_field_rules (seen_as «record».now)) }
{
    let number = record.number;
    let fields = record.fields;
    text_fault(FileKind::Stages, record)
        .or_else(|| stage_fails(number, FIELD_COUNT, 0, fields.len() != 7))
        .or_else(|| stage_fails(number, NAME, 1, is_bad_name(field_in(fields, 1))))
        .or_else(|| number_fault(number, fields))
        .or_else(|| range_fault(number, fields))
}

/// The first rule that fails on a record's place behind earlier ones, its limits and its bound.
pub fn place_fault(
    record: &Record<'_>,
    earlier: &[Record<'_>],
    names: &Names,
    horizon: u16,
) -> Option<FileFault>
    requires { names.now ≡ names_in (all_seen earlier.now) }
    ensures { result ≡ first_of (stage_place_rules horizon (all_seen earlier.now) (seen_as «record».now)) }
{
    let number = record.number;
    let fields = record.fields;
    let twice = is_twice(record, earlier, names);
    stage_fails(number, TOO_MANY, 0, is_full(earlier, MAX_STAGES))
        .or_else(|| stage_fails(number, TWICE, 1, twice))
        .or_else(|| limit_fault(number, fields, horizon))
        .or_else(|| stage_fails(number, BOUND, 6, is_bad_bound(field_in(fields, 6))))
}

fn stage_fails(number: u32, rule: u8, column: u32, fails: bool) -> Option<FileFault>
    ensures { result ≡ stage_fails (record_of number []) rule column fails }
{
    fails_if(FileKind::Stages, number, rule, column, fails)
}

// Each number field is digits, or blank where that is allowed.
fn number_fault(number: u32, fields: &[Text]) -> Option<FileFault>
    ensures { result ≡ first_of (stage_numbers (record_of number fields.now)) }
{
    stage_fails(number, NUMBER, 2, is_no_number(TIME, field_in(fields, 2)))
        .or_else(|| stage_fails(number, NUMBER, 3, is_misread(TIME, field_in(fields, 3))))
        .or_else(|| stage_fails(number, NUMBER, 4, is_misread(TIME, field_in(fields, 4))))
        .or_else(|| stage_fails(number, NUMBER, 5, is_misread(TIME, field_in(fields, 5))))
        .or_else(|| stage_fails(
            number,
            NUMBER,
            7,
            is_no_number(MAX_UNIT, field_in(fields, 7)),
        ))
}

// Each number is in its column's range.
fn range_fault(number: u32, fields: &[Text]) -> Option<FileFault>
    ensures { result ≡ first_of (stage_ranges (record_of number fields.now)) }
{
    stage_fails(number, RANGE, 2, is_past(TIME, field_in(fields, 2)))
        .or_else(|| stage_fails(number, RANGE, 3, is_past(TIME, field_in(fields, 3))))
        .or_else(|| stage_fails(number, RANGE, 4, is_past(TIME, field_in(fields, 4))))
        .or_else(|| stage_fails(number, RANGE, 5, is_past(TIME, field_in(fields, 5))))
        .or_else(|| stage_fails(number, RANGE, 7, is_past(MAX_UNIT, field_in(fields, 7))))
}

// The limits fit each other, and the horizon.
fn limit_fault(number: u32, fields: &[Text], horizon: u16) -> Option<FileFault>
    ensures { result ≡ first_of (stage_limits horizon (record_of number fields.now)) }
{
    let supply = number_or(0, TIME, field_in(fields, 3));
    let least = number_or(0, TIME, field_in(fields, 4));
    stage_fails(number, LIMITS, 4, has_crossed_limits(fields))
        .or_else(|| stage_fails(number, PAST_HORIZON, 3, supply > horizon as u64))
        .or_else(|| stage_fails(number, PAST_HORIZON, 4, least > horizon as u64))
}

// The written least is above the written most, where that is not blank.
#[tactic(auto, unfolding(crate::specs::Stages::has_crossed_limits))]
fn has_crossed_limits(fields: &[Text]) -> bool
    ensures { result ≡ has_crossed_limits fields.now }
{
    let least = field_in(fields, 4);
    let most = field_in(fields, 5);
    !is_blank(most) && number_or(0, TIME, most) < number_or(0, TIME, least)
}
