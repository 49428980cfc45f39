// The ranges of a certificate's numbers.
ghost use Rattle.std.specs.Prelude.{◌↔◌, ◌≤◌, All, IfSome, IsTrue};
ghost use Rattle.service_model.specs.CertNumbers.{InRange, PlanInRange, HeadInRange, TableInRange, NodeInRange, SplitInRange, VerdictInRange};

use service_model::cert_rules::{MAX_BUDGET, MAX_NUMBER};
use service_model::{Head, INF, Item, MAX_TIME, Node, Plan, Split, Table, Verdict};

fn times_in_range(times: &[u16]) -> bool
    ensures { IsTrue result ↔ All (λ time. time ≤ MAX_TIME) times.now }
{
    times.iter().all(|time| *time <= MAX_TIME)
}

fn values_in_range(values: &[u64]) -> bool
    ensures { IsTrue result ↔ All (λ x. x ≤ INF) values.now }
{
    values.iter().all(|value| *value <= INF)
}

fn numbers_in_range(numbers: &[u32]) -> bool
    ensures { IsTrue result ↔ All (λ k. k ≤ MAX_NUMBER) numbers.now }
{
    numbers.iter().all(|number| *number <= MAX_NUMBER)
}

fn plan_in_range(plan: &Option<Plan>) -> bool
    ensures { IsTrue result ↔ IfSome plan.now PlanInRange }
{
    match plan {
        None => true,
        Some(plan) => {
            times_in_range(plan.inbound.as_slice()) && times_in_range(plan.outbound.as_slice())
        }
    }
}

fn head_in_range(head: &Head) -> bool
    ensures { IsTrue result ↔ HeadInRange head.now }
{
    head.horizon <= MAX_TIME
        && head.stages <= MAX_NUMBER
        && 1 <= head.budget
        && head.budget <= MAX_BUDGET
}

fn table_in_range(table: &Table) -> bool
    ensures { IsTrue result ↔ TableInRange table.now }
{
    table.stage <= MAX_NUMBER
        && table.least <= MAX_TIME
        && table.most <= MAX_TIME
        && table.floor <= MAX_TIME
        && numbers_in_range(table.children.as_slice())
        && values_in_range(table.values.as_slice())
}

fn node_in_range(node: &Node) -> bool
    ensures { IsTrue result ↔ NodeInRange node.now }
{
    numbers_in_range(node.roots.as_slice()) && plan_in_range(&node.relaxed)
}

fn split_in_range(split: &Split) -> bool
    ensures { IsTrue result ↔ SplitInRange split.now }
{
    split.node <= MAX_NUMBER && split.supplier <= MAX_NUMBER && split.customer <= MAX_NUMBER
}

fn verdict_in_range(verdict: &Verdict) -> bool
    ensures { IsTrue result ↔ VerdictInRange verdict.now }
{
    verdict.bound <= INF && plan_in_range(&verdict.plan)
}

/// Whether the item's numbers are in their ranges.
pub(crate) fn in_range(item: &Item) -> bool
    ensures { IsTrue result ↔ InRange item.now }
{
    match item {
        Item::Head(head) => head_in_range(head),
        Item::Table(table) => table_in_range(table),
        Item::Node(node) => node_in_range(node),
        Item::Split(split) => split_in_range(split),
        Item::End(verdict) => verdict_in_range(verdict),
    }
}
