// A verdict as fields of a line.
ghost use Rattle.std.specs.Prelude.{◌≡◌, ◌++◌, IfOk, OnOk, IfSome};
ghost use Rattle.service_model.specs.Plans.{Feasible};
ghost use Rattle.stock_report.specs.Outcomes.{outcome_row, cost_text};

use crate::text::number;
use service_model::{List, Network, NoMemory, Outcome, Plan, Verdict};
use stage_file::{Row, Text};
use std::alloc::Global;

/// Puts a verdict behind a row: its outcome, with the cost of its plan, and where the budget was spent with the bound.
pub fn push_outcome(
    alloc: Global,
    network: &Network,
    verdict: &Verdict,
    row: &mut Row,
) -> Result<(), NoMemory>
    requires { IfSome verdict.now.plan (Feasible network.now) }
    ensures { OnOk result (row.new ≡ row.old ++ outcome_row network.now verdict.now) }
{
    match verdict.outcome {
        Outcome::Optimal => {
            row.push(List::copied(alloc, b"optimal")?)?;
            row.push(cost_text(alloc, network, &verdict.plan)?)
        }
        Outcome::Infeasible => row.push(List::copied(alloc, b"infeasible")?),
        Outcome::Spent => {
            row.push(List::copied(alloc, b"spent")?)?;
            row.push(number(alloc, verdict.bound)?)?;
            row.push(cost_text(alloc, network, &verdict.plan)?)
        }
    }
}

// The cost of a plan, and a dash where there is none.
fn cost_text(alloc: Global, network: &Network, plan: &Option<Plan>) -> Result<Text, NoMemory>
    requires { IfSome plan.now (Feasible network.now) }
    ensures { IfOk result (λ text. text ≡ cost_text network.now plan.now) }
{
    match plan {
        Some(plan) => number(alloc, network.cost(plan)),
        None => List::copied(alloc, b"-"),
    }
}
