// A line read: one of five arrays, behind its word.
ghost use Rattle.std.specs.Prelude.{◌≡◌};
ghost use Rattle.serde_json.specs.View.{view, items_view};
ghost use Rattle.bound_cert.specs.Refusals.{Gives};
ghost use Rattle.bound_cert.specs.Reading.{lists_among, limits_among, head_among, table_among, node_among, split_among, end_among, line_among, line_in, value_from, line_from};

use crate::fields::{
    bound_field, budget_field, costs_field, kind_field, no_fields, number_field, numbers_field,
    outcome_field, plan_field, tag_field, time_field,
};
use crate::limits::FORMAT;
use crate::line::{Limits, Line, LineStop, Refusal, Tag};
use serde_json::Value;
use service_model::{Head, Item, List, Node, Split, Table, Verdict};
use std::alloc::Global;

#[tactic(auto, unfolding(crate::specs::Reading::head_among))]
fn head_among(fields: &[Value]) -> Result<Line, LineStop>
    ensures { Gives (λ line. line) result (head_among (items_view fields.now)) }
{
    let (version, rest) = number_field(fields)?;
    let (horizon, rest) = time_field(rest)?;
    let (stages, rest) = number_field(rest)?;
    let (budget, rest) = budget_field(rest)?;
    no_fields(rest)?;
    let head = Head {
        horizon,
        stages,
        budget,
    };
    Ok(Line {
        version,
        item: Item::Head(head),
    })
}

#[tactic(auto, unfolding(crate::specs::Reading::limits_among))]
fn limits_among(fields: &[Value]) -> Result<(Limits, &[Value]), LineStop>
    ensures { Gives (λ x. (x.0, items_view x.1.now)) result (limits_among (items_view fields.now)) }
{
    let (least, rest) = time_field(fields)?;
    let (most, rest) = time_field(rest)?;
    let (floor, rest) = time_field(rest)?;
    let limits = Limits { least, most, floor };
    Ok((limits, rest))
}

#[tactic(auto, unfolding(crate::specs::Reading::lists_among))]
fn lists_among(alloc: Global, fields: &[Value]) -> Result<(List<u32>, List<u64>), LineStop>
    ensures { Gives (λ x. x) result (lists_among (items_view fields.now)) }
{
    let (children, rest) = numbers_field(alloc, fields)?;
    let (values, rest) = costs_field(alloc, rest)?;
    no_fields(rest)?;
    Ok((children, values))
}

#[tactic(auto, unfolding(crate::specs::Reading::table_among))]
fn table_among(alloc: Global, fields: &[Value]) -> Result<Line, LineStop>
    ensures { Gives (λ line. line) result (table_among (items_view fields.now)) }
{
    let (stage, rest) = number_field(fields)?;
    let (kind, rest) = kind_field(rest)?;
    let (limits, rest) = limits_among(rest)?;
    let (children, values) = lists_among(alloc, rest)?;
    let table = Table {
        stage,
        kind,
        least: limits.least,
        most: limits.most,
        floor: limits.floor,
        children,
        values,
    };
    Ok(Line {
        version: FORMAT,
        item: Item::Table(table),
    })
}

#[tactic(auto, unfolding(crate::specs::Reading::node_among))]
fn node_among(alloc: Global, seen: u32, fields: &[Value]) -> Result<Line, LineStop>
    ensures { Gives (λ line. line) result (node_among seen (items_view fields.now)) }
{
    let (roots, rest) = numbers_field(alloc, fields)?;
    let (relaxed, rest) = plan_field(alloc, rest)?;
    no_fields(rest)?;
    let node = Node {
        seen,
        roots,
        relaxed,
    };
    Ok(Line {
        version: FORMAT,
        item: Item::Node(node),
    })
}

#[tactic(auto, unfolding(crate::specs::Reading::split_among))]
fn split_among(fields: &[Value]) -> Result<Line, LineStop>
    ensures { Gives (λ line. line) result (split_among (items_view fields.now)) }
{
    let (node, rest) = number_field(fields)?;
    let (supplier, rest) = number_field(rest)?;
    let (customer, rest) = number_field(rest)?;
    no_fields(rest)?;
    let split = Split {
        node,
        supplier,
        customer,
    };
    Ok(Line {
        version: FORMAT,
        item: Item::Split(split),
    })
}

#[tactic(auto, unfolding(crate::specs::Reading::end_among))]
fn end_among(alloc: Global, fields: &[Value]) -> Result<Line, LineStop>
    ensures { Gives (λ line. line) result (end_among (items_view fields.now)) }
{
    let (outcome, rest) = outcome_field(fields)?;
    let (bound, rest) = bound_field(rest)?;
    let (plan, rest) = plan_field(alloc, rest)?;
    no_fields(rest)?;
    let verdict = Verdict {
        outcome,
        bound,
        plan,
    };
    Ok(Line {
        version: FORMAT,
        item: Item::End(verdict),
    })
}

#[tactic(auto, unfolding(crate::specs::Reading::line_in))]
fn line_in(alloc: Global, seen: u32, value: &Value) -> Result<Line, LineStop>
    ensures { Gives (λ line. line) result (line_in seen (view value.now)) }
{
    let Some(fields) = value.as_array() else {
        return Err(LineStop::Refused(Refusal::Shape));
    };
    let (tag, rest) = tag_field(fields.as_slice())?;
    match tag {
        Tag::Head => head_among(rest),
        Tag::Table => table_among(alloc, rest),
        Tag::Node => node_among(alloc, seen, rest),
        Tag::Split => split_among(rest),
        Tag::End => end_among(alloc, rest),
    }
}

#[tactic(auto, using(crate::proofs::ReadFacts::value_here, crate::proofs::ReadFacts::no_value))]
fn value_from(alloc: Global, bytes: &[u8]) -> Result<Value, LineStop>
    ensures { Gives view result (value_from bytes.now) }
{
    match Value::from_slice(alloc, bytes) {
        Ok(value) => Ok(value),
        Err(error) => if error.is_memory() {
            Err(LineStop::NoMemory)
        } else {
            Err(LineStop::Refused(Refusal::NotJson))
        },
    }
}

/// The item that a line's bytes stand for, behind so many table lines.
#[tactic(auto, unfolding(crate::specs::Reading::line_from))]
pub(crate) fn line_from(alloc: Global, bytes: &[u8], seen: u32) -> Result<Line, LineStop>
    ensures { Gives (λ line. line) result (line_from seen bytes.now) }
{
    let value = value_from(alloc, bytes)?;
    line_in(alloc, seen, &value)
}
