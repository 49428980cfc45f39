// The fields of a line: each reader takes the first field, and gives it with the fields behind it.
ghost use Rattle.std.specs.Prelude.{◌≡◌};
ghost use Rattle.serde_json.specs.View.{view, items_view};
ghost use Rattle.bound_cert.specs.Refusals.{Gives};
ghost use Rattle.bound_cert.specs.Fields.{whole_in, kind_in, outcome_in, tag_in, field, wholes_in, plan_among, plan_in, ends};

use crate::line::{LineStop, Refusal, Tag};
use crate::values::{costs_in, kind_in, numbers_in, outcome_in, tag_in, times_in, whole_in};
use serde_json::Value;
use service_model::cert_rules::{MAX_BUDGET, MAX_NUMBER};
use service_model::{INF, Kind, List, MAX_TIME, Outcome, Plan};
use std::alloc::Global;

fn first_field(fields: &[Value]) -> Result<(&Value, &[Value]), LineStop>
    ensures { Gives (λ x. (view x.0.now, items_view x.1.now)) result (field (λ d. Ok d) (items_view fields.now)) }
{
    match fields {
        [first, rest @ ..] => Ok((first, rest)),
        [] => Err(LineStop::Refused(Refusal::Shape)),
    }
}

/// No field is left.
pub(crate) fn no_fields(fields: &[Value]) -> Result<(), LineStop>
    ensures { Gives (λ u. u) result (ends (items_view fields.now) tt) }
{
    match fields.split_first() {
        None => Ok(()),
        Some(_) => Err(LineStop::Refused(Refusal::Shape)),
    }
}

pub(crate) fn tag_field(fields: &[Value]) -> Result<(Tag, &[Value]), LineStop>
    ensures { Gives (λ x. (x.0, items_view x.1.now)) result (field tag_in (items_view fields.now)) }
{
    let (first, rest) = first_field(fields)?;
    Ok((tag_in(first)?, rest))
}

pub(crate) fn time_field(fields: &[Value]) -> Result<(u16, &[Value]), LineStop>
    ensures { Gives (λ x. (x.0, items_view x.1.now)) result (field (whole_in 0 MAX_TIME) (items_view fields.now)) }
{
    let (first, rest) = first_field(fields)?;
    Ok((whole_in(first, 0, MAX_TIME as u64)? as u16, rest))
}

pub(crate) fn number_field(fields: &[Value]) -> Result<(u32, &[Value]), LineStop>
    ensures { Gives (λ x. (x.0, items_view x.1.now)) result (field (whole_in 0 MAX_NUMBER) (items_view fields.now)) }
{
    let (first, rest) = first_field(fields)?;
    Ok((whole_in(first, 0, MAX_NUMBER as u64)? as u32, rest))
}

pub(crate) fn budget_field(fields: &[Value]) -> Result<(u32, &[Value]), LineStop>
    ensures { Gives (λ x. (x.0, items_view x.1.now)) result (field (whole_in 1 MAX_BUDGET) (items_view fields.now)) }
{
    let (first, rest) = first_field(fields)?;
    Ok((whole_in(first, 1, MAX_BUDGET as u64)? as u32, rest))
}

pub(crate) fn bound_field(fields: &[Value]) -> Result<(u64, &[Value]), LineStop>
    ensures { Gives (λ x. (x.0, items_view x.1.now)) result (field (whole_in 0 INF) (items_view fields.now)) }
{
    let (first, rest) = first_field(fields)?;
    Ok((whole_in(first, 0, INF)?, rest))
}

pub(crate) fn kind_field(fields: &[Value]) -> Result<(Kind, &[Value]), LineStop>
    ensures { Gives (λ x. (x.0, items_view x.1.now)) result (field kind_in (items_view fields.now)) }
{
    let (first, rest) = first_field(fields)?;
    Ok((kind_in(first)?, rest))
}

pub(crate) fn outcome_field(fields: &[Value]) -> Result<(Outcome, &[Value]), LineStop>
    ensures { Gives (λ x. (x.0, items_view x.1.now)) result (field outcome_in (items_view fields.now)) }
{
    let (first, rest) = first_field(fields)?;
    Ok((outcome_in(first)?, rest))
}

pub(crate) fn times_field(
    alloc: Global,
    fields: &[Value],
) -> Result<(List<u16>, &[Value]), LineStop>
    ensures { Gives (λ x. (x.0, items_view x.1.now)) result (field (wholes_in MAX_TIME) (items_view fields.now)) }
{
    let (first, rest) = first_field(fields)?;
    Ok((times_in(alloc, first)?, rest))
}

pub(crate) fn numbers_field(
    alloc: Global,
    fields: &[Value],
) -> Result<(List<u32>, &[Value]), LineStop>
    ensures { Gives (λ x. (x.0, items_view x.1.now)) result (field (wholes_in MAX_NUMBER) (items_view fields.now)) }
{
    let (first, rest) = first_field(fields)?;
    Ok((numbers_in(alloc, first)?, rest))
}

pub(crate) fn costs_field(
    alloc: Global,
    fields: &[Value],
) -> Result<(List<u64>, &[Value]), LineStop>
    ensures { Gives (λ x. (x.0, items_view x.1.now)) result (field (wholes_in INF) (items_view fields.now)) }
{
    let (first, rest) = first_field(fields)?;
    Ok((costs_in(alloc, first)?, rest))
}

#[tactic(auto, unfolding(crate::specs::Fields::plan_among))]
fn plan_among(alloc: Global, fields: &[Value]) -> Result<Plan, LineStop>
    ensures { Gives (λ plan. plan) result (plan_among (items_view fields.now)) }
{
    let (inbound, rest) = times_field(alloc, fields)?;
    let (outbound, rest) = times_field(alloc, rest)?;
    no_fields(rest)?;
    Ok(Plan { inbound, outbound })
}

#[tactic(auto, unfolding(crate::specs::Fields::plan_in))]
fn plan_in(alloc: Global, value: &Value) -> Result<Option<Plan>, LineStop>
    ensures { Gives (λ plan. plan) result (plan_in (view value.now)) }
{
    match value {
        Value::Null => Ok(None),
        Value::Array(fields) => Ok(Some(plan_among(alloc, fields.as_slice())?)),
        _ => Err(LineStop::Refused(Refusal::Shape)),
    }
}

pub(crate) fn plan_field(
    alloc: Global,
    fields: &[Value],
) -> Result<(Option<Plan>, &[Value]), LineStop>
    ensures { Gives (λ x. (x.0, items_view x.1.now)) result (field plan_in (items_view fields.now)) }
{
    let (first, rest) = first_field(fields)?;
    Ok((plan_in(alloc, first)?, rest))
}
