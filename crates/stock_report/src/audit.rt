// What `audit` prints.
ghost use Rattle.std.specs.Prelude.{◌≡◌, ◌++◌, ◌∷◌, [], IfOk, OnOk, Some};
ghost use Rattle.service_model.specs.Plans.{HasTimes, Feasible};
ghost use Rattle.service_model.specs.Breaks.{first_break_of};
ghost use Rattle.network_check.specs.Checked.{IsChecked};
ghost use Rattle.stock_report.specs.Lines.{lines_of};
ghost use Rattle.stock_report.specs.Audits.{audit_rows, broken_row, broken_names, audited_rows};

use crate::names::{push_ends, push_name};
use crate::report::{push_report, report_header};
use crate::text::{number, numbered, row_of, text_of, text_of_row};
use network_check::Checked;
use service_model::{Break, List, NOT_WAITED, NoMemory, Plan};
use stage_file::{Row, Rows, Text};
use std::alloc::Global;

/// What is printed for a plan: what it costs with its report, or the first rule that it breaks.
pub fn audit_text(alloc: Global, checked: &Checked, plan: &Plan) -> Result<Text, NoMemory>
    requires checked { IsChecked checked.now }
    requires times { HasTimes checked.now.network plan.now }
    ensures { IfOk result (λ text. text ≡ lines_of (audited_rows checked.now plan.now)) }
{
    match checked.network.first_break(plan) {
        None => feasible_text(alloc, checked, plan),
        Some(broken) => broken_text(alloc, checked, plan, broken),
    }
}

fn feasible_text(alloc: Global, checked: &Checked, plan: &Plan) -> Result<Text, NoMemory>
    requires checked { IsChecked checked.now }
    requires feasible { Feasible checked.now.network plan.now }
    ensures { IfOk result (λ text. text ≡ lines_of (audit_rows checked.now plan.now)) }
{
    let rows = audit_rows(alloc, checked, plan)?;
    text_of(alloc, rows.as_slice())
}

fn audit_rows(alloc: Global, checked: &Checked, plan: &Plan) -> Result<Rows, NoMemory>
    requires checked { IsChecked checked.now }
    requires feasible { Feasible checked.now.network plan.now }
    ensures { IfOk result (λ rows. rows ≡ audit_rows checked.now plan.now) }
{
    let mut outcome = row_of(alloc, &["feasible"])?;
    outcome.push(number(alloc, checked.network.cost(plan))?)?;
    let mut rows = List::new(alloc);
    rows.push(outcome)?;
    rows.push(report_header(alloc)?)?;
    push_report(alloc, checked, plan, &mut rows)?;
    Ok(rows)
}

fn broken_text(
    alloc: Global,
    checked: &Checked,
    plan: &Plan,
    broken: Break,
) -> Result<Text, NoMemory>
    requires checked { IsChecked checked.now }
    requires broken { first_break_of checked.now.network plan.now ≡ Some broken }
    ensures { IfOk result (λ text. text ≡ lines_of (broken_row checked.now broken ∷ [])) }
{
    let row = broken_row(alloc, checked, plan, broken)?;
    text_of_row(alloc, row)
}

fn broken_row(alloc: Global, checked: &Checked, plan: &Plan, broken: Break) -> Result<Row, NoMemory>
    requires checked { IsChecked checked.now }
    requires broken { first_break_of checked.now.network plan.now ≡ Some broken }
    ensures { IfOk result (λ row. row ≡ broken_row checked.now broken) }
{
    let mut row = row_of(alloc, &["broken"])?;
    row.push(numbered(alloc, b"B", broken.rule as u64)?)?;
    push_names(alloc, checked, plan, broken, &mut row)?;
    Ok(row)
}

// Puts the names of what breaks the rule behind a row: a stage's, or those of the two ends of an arc.
fn push_names(
    alloc: Global,
    checked: &Checked,
    plan: &Plan,
    broken: Break,
    row: &mut Row,
) -> Result<(), NoMemory>
    requires checked { IsChecked checked.now }
    requires broken { first_break_of checked.now.network plan.now ≡ Some broken }
    ensures { OnOk result (row.new ≡ row.old ++ broken_names checked.now broken) }
{
    if broken.rule == NOT_WAITED {
        push_ends(alloc, checked, broken.place as usize, row)
    } else {
        push_name(alloc, checked, broken.place, row)
    }
}
