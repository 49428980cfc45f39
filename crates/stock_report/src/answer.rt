// What `solve` prints.
ghost use Rattle.std.specs.Prelude.{◌≡◌, ◌++◌, IfOk, OnOk, IfSome};
ghost use Rattle.service_model.specs.Plans.{Feasible};
ghost use Rattle.network_check.specs.Checked.{IsChecked};
ghost use Rattle.stock_report.specs.Lines.{lines_of};
ghost use Rattle.stock_report.specs.Outcomes.{outcome_row};
ghost use Rattle.stock_report.specs.Answers.{plan_report, solution_rows, ranges_row, filled_row};

use crate::outcome::push_outcome;
use crate::report::{push_report, report_header};
use crate::text::{number, row_of, text_of};
use network_check::Checked;
use service_model::{List, Network, NoMemory, Plan, Verdict};
use stage_file::{Row, Rows, Text};
use std::alloc::Global;

/// What is printed for the verdict of a search, with how many ranges it relaxed and how many tables were filled for it.
pub fn answer_text(
    alloc: Global,
    checked: &Checked,
    verdict: &Verdict,
    ranges: u32,
    filled: u64,
) -> Result<Text, NoMemory>
    requires checked { IsChecked checked.now }
    requires feasible { IfSome verdict.now.plan (Feasible checked.now.network) }
    ensures { IfOk result (λ text. text ≡ lines_of (solution_rows checked.now verdict.now ranges filled)) }
{
    let rows = solution_rows(alloc, checked, verdict, ranges, filled)?;
    text_of(alloc, rows.as_slice())
}

fn solution_rows(
    alloc: Global,
    checked: &Checked,
    verdict: &Verdict,
    ranges: u32,
    filled: u64,
) -> Result<Rows, NoMemory>
    requires checked { IsChecked checked.now }
    requires feasible { IfSome verdict.now.plan (Feasible checked.now.network) }
    ensures { IfOk result (λ rows. rows ≡ solution_rows checked.now verdict.now ranges filled) }
{
    let mut rows = List::new(alloc);
    rows.push(outcome_row(alloc, &checked.network, verdict)?)?;
    push_plan(alloc, checked, &verdict.plan, &mut rows)?;
    rows.push(ranges_row(alloc, ranges)?)?;
    rows.push(filled_row(alloc, filled)?)?;
    Ok(rows)
}

/// A verdict as a row: its outcome with its numbers.
pub fn outcome_row(alloc: Global, network: &Network, verdict: &Verdict) -> Result<Row, NoMemory>
    requires { IfSome verdict.now.plan (Feasible network.now) }
    ensures { IfOk result (λ row. row ≡ outcome_row network.now verdict.now) }
{
    let mut row = List::new(alloc);
    push_outcome(alloc, network, verdict, &mut row)?;
    Ok(row)
}

// Puts the report on a plan behind rows, where there is one.
fn push_plan(
    alloc: Global,
    checked: &Checked,
    plan: &Option<Plan>,
    rows: &mut Rows,
) -> Result<(), NoMemory>
    requires checked { IsChecked checked.now }
    requires feasible { IfSome plan.now (Feasible checked.now.network) }
    ensures { OnOk result (rows.new ≡ rows.old ++ plan_report checked.now plan.now) }
{
    match plan {
        Some(plan) => {
            rows.push(report_header(alloc)?)?;
            push_report(alloc, checked, plan, rows)
        }
        None => Ok(()),
    }
}

/// The row with the number of ranges that were relaxed.
pub fn ranges_row(alloc: Global, ranges: u32) -> Result<Row, NoMemory>
    ensures { IfOk result (λ row. row ≡ ranges_row ranges) }
{
    let mut row = row_of(alloc, &["ranges"])?;
    row.push(number(alloc, ranges as u64)?)?;
    Ok(row)
}

/// The row with the number of tables that were filled.
pub fn filled_row(alloc: Global, filled: u64) -> Result<Row, NoMemory>
    ensures { IfOk result (λ row. row ≡ filled_row filled) }
{
    let mut row = row_of(alloc, &["filled"])?;
    row.push(number(alloc, filled)?)?;
    Ok(row)
}
