// JSON values of a line: whole numbers in their ranges, kinds, words, lists and plans.
ghost use Rattle.std.specs.Prelude.{◌≡◌, ◌≤◌, IfOk, All};
ghost use Rattle.serde_json.specs.View.{view, items_view};
ghost use Rattle.bound_cert.specs.Refusals.{Gives};
ghost use Rattle.bound_cert.specs.Fields.{whole_in, kind_in, outcome_in, tag_in, tag_of, wholes_among, wholes_in};

use crate::line::{LineStop, Refusal, Tag};
use serde_json::Value;
use service_model::cert_rules::MAX_NUMBER;
use service_model::{INF, Kind, List, MAX_TIME, Outcome};
use std::alloc::{AllocError, Global};

#[tactic(auto, unfolding(crate::specs::Fields::whole_in))]
pub(crate) fn whole_in(value: &Value, least: u64, most: u64) -> Result<u64, LineStop>
    ensures value { Gives (λ n. n) result (whole_in least most (view value.now)) }
    ensures within { IfOk result (λ n. n ≤ most) }
{
    match value.as_u64() {
        Some(n) if least <= n && n <= most => Ok(n),
        _ => Err(LineStop::Refused(Refusal::Shape)),
    }
}

#[tactic(auto, unfolding(crate::specs::Fields::kind_in))]
pub(crate) fn kind_in(value: &Value) -> Result<Kind, LineStop>
    ensures { Gives (λ kind. kind) result (kind_in (view value.now)) }
{
    Ok(match whole_in(value, 0, 2)? {
        0 => Kind::Down,
        1 => Kind::Up,
        _ => Kind::Root,
    })
}

#[tactic(auto, unfolding(crate::specs::Fields::outcome_in))]
pub(crate) fn outcome_in(value: &Value) -> Result<Outcome, LineStop>
    ensures { Gives (λ outcome. outcome) result (outcome_in (view value.now)) }
{
    Ok(match whole_in(value, 0, 2)? {
        0 => Outcome::Optimal,
        1 => Outcome::Infeasible,
        _ => Outcome::Spent,
    })
}

fn tag_of(text: &str) -> Result<Tag, LineStop>
    ensures { Gives (λ tag. tag) result (tag_of text.now) }
{
    match text {
        "gsm-cert" => Ok(Tag::Head),
        "t" => Ok(Tag::Table),
        "n" => Ok(Tag::Node),
        "s" => Ok(Tag::Split),
        "e" => Ok(Tag::End),
        _ => Err(LineStop::Refused(Refusal::Shape)),
    }
}

#[tactic(auto, unfolding(crate::specs::Fields::tag_in))]
pub(crate) fn tag_in(value: &Value) -> Result<Tag, LineStop>
    ensures { Gives (λ tag. tag) result (tag_in (view value.now)) }
{
    match value.as_str() {
        Some(text) => tag_of(text),
        None => Err(LineStop::Refused(Refusal::Shape)),
    }
}

fn wholes_among(alloc: Global, values: &[Value], most: u64) -> Result<Vec<u64>, LineStop>
    ensures value { Gives (λ v. v.items) result (wholes_among most (items_view values.now)) }
    ensures within { IfOk result (λ v. All (λ n. n ≤ most) v.items) }
{
    let mut found = Vec::new(alloc);
    'values: for value in values {
        let n = whole_in(value, 0, most)?;
        found.push(n)?;
    }
    Ok(found)
}

#[tactic(auto, unfolding(crate::specs::Fields::wholes_in))]
fn wholes_in(alloc: Global, value: &Value, most: u64) -> Result<Vec<u64>, LineStop>
    ensures value { Gives (λ v. v.items) result (wholes_in most (view value.now)) }
    ensures within { IfOk result (λ v. All (λ n. n ≤ most) v.items) }
{
    match value.as_array() {
        Some(values) => wholes_among(alloc, values.as_slice(), most),
        None => Err(LineStop::Refused(Refusal::Shape)),
    }
}

fn narrowed_times(alloc: Global, numbers: &[u64]) -> Result<List<u16>, AllocError>
    requires { All (λ n. n ≤ MAX_TIME) numbers.now }
    ensures { IfOk result (λ l. l ≡ numbers.now) }
{
    let mut found = Vec::new(alloc);
    'numbers: for number in numbers {
        found.push(*number as u16)?;
    }
    Ok(List::from_vec(found))
}

fn narrowed_numbers(alloc: Global, numbers: &[u64]) -> Result<List<u32>, AllocError>
    requires { All (λ n. n ≤ MAX_NUMBER) numbers.now }
    ensures { IfOk result (λ l. l ≡ numbers.now) }
{
    let mut found = Vec::new(alloc);
    'numbers: for number in numbers {
        found.push(*number as u32)?;
    }
    Ok(List::from_vec(found))
}

pub(crate) fn times_in(alloc: Global, value: &Value) -> Result<List<u16>, LineStop>
    ensures { Gives (λ l. l) result (wholes_in MAX_TIME (view value.now)) }
{
    let numbers = wholes_in(alloc, value, MAX_TIME as u64)?;
    Ok(narrowed_times(alloc, numbers.as_slice())?)
}

pub(crate) fn numbers_in(alloc: Global, value: &Value) -> Result<List<u32>, LineStop>
    ensures { Gives (λ l. l) result (wholes_in MAX_NUMBER (view value.now)) }
{
    let numbers = wholes_in(alloc, value, MAX_NUMBER as u64)?;
    Ok(narrowed_numbers(alloc, numbers.as_slice())?)
}

pub(crate) fn costs_in(alloc: Global, value: &Value) -> Result<List<u64>, LineStop>
    ensures { Gives (λ l. l) result (wholes_in INF (view value.now)) }
{
    Ok(List::from_vec(wholes_in(alloc, value, INF)?))
}
