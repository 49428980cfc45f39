// The line of an item.
ghost use Rattle.std.specs.Prelude.{◌≡◌, IfOk};
ghost use Rattle.serde_json.specs.View.{view};
ghost use Rattle.bound_cert.specs.Lines as lines;

use crate::limits::FORMAT;
use serde_json::{Value, json};
use service_model::{Item, Kind, List, NoMemory, Outcome, Plan};
use std::alloc::{AllocError, Global};

fn times(alloc: Global, items: &[u16]) -> Result<Value, AllocError>
    ensures { IfOk result (λ v. view v ≡ lines.wholes items.now) }
{
    let mut values = Vec::new(alloc);
    'items: for item in items {
        values.push(Value::from(*item))?;
    }
    Ok(Value::Array(values))
}

fn numbers(alloc: Global, items: &[u32]) -> Result<Value, AllocError>
    ensures { IfOk result (λ v. view v ≡ lines.wholes items.now) }
{
    let mut values = Vec::new(alloc);
    'items: for item in items {
        values.push(Value::from(*item))?;
    }
    Ok(Value::Array(values))
}

fn costs(alloc: Global, items: &[u64]) -> Result<Value, AllocError>
    ensures { IfOk result (λ v. view v ≡ lines.wholes items.now) }
{
    let mut values = Vec::new(alloc);
    'items: for item in items {
        values.push(Value::from(*item))?;
    }
    Ok(Value::Array(values))
}

fn plan_value(alloc: Global, plan: &Option<Plan>) -> Result<Value, AllocError>
    ensures { IfOk result (λ v. view v ≡ lines.plan_data plan.now) }
{
    match plan {
        None => Ok(Value::Null),
        Some(plan) => {
            let inbound = times(alloc, plan.inbound.as_slice())?;
            let outbound = times(alloc, plan.outbound.as_slice())?;
            json!(in alloc; [inbound, outbound])
        }
    }
}

fn kind_number(kind: Kind) -> u8
    ensures { result ≡ lines.kind_number kind }
{
    match kind {
        Kind::Down => 0,
        Kind::Up => 1,
        Kind::Root => 2,
    }
}

fn outcome_number(outcome: Outcome) -> u8
    ensures { result ≡ lines.outcome_number outcome }
{
    match outcome {
        Outcome::Optimal => 0,
        Outcome::Infeasible => 1,
        Outcome::Spent => 2,
    }
}

fn value_of(alloc: Global, item: &Item) -> Result<Value, AllocError>
    ensures { IfOk result (λ v. view v ≡ lines.data_of item.now) }
{
    match item {
        Item::Head(head) => {
            json!(in alloc; ["gsm-cert", FORMAT, head.horizon, head.stages, head.budget])
        }
        Item::Table(table) => {
            let children = numbers(alloc, table.children.as_slice())?;
            let values = costs(alloc, table.values.as_slice())?;
            json!(in alloc; ["t", table.stage, kind_number(table.kind), table.least, table.most, table.floor, children, values])
        }
        Item::Node(node) => {
            let roots = numbers(alloc, node.roots.as_slice())?;
            let relaxed = plan_value(alloc, &node.relaxed)?;
            json!(in alloc; ["n", roots, relaxed])
        }
        Item::Split(split) => { json!(in alloc; ["s", split.node, split.supplier, split.customer]) }
        Item::End(verdict) => {
            let plan = plan_value(alloc, &verdict.plan)?;
            json!(in alloc; ["e", outcome_number(verdict.outcome), verdict.bound, plan])
        }
    }
}

/// The line of an item, with its line feed.
pub fn line_of(alloc: Global, item: &Item) -> Result<List<u8>, NoMemory>
    ensures { IfOk result (λ line. line ≡ lines.line_of item.now) }
{
    let mut bytes = value_of(alloc, item)?.to_string(alloc)?.into_bytes();
    bytes.push(b'\n')?;
    Ok(List::from_vec(bytes))
}
