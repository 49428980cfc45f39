// What `check` prints.
ghost use Rattle.std.specs.Prelude.{◌≡◌, ◌∷◌, [], IfOk, IfSome};
ghost use Rattle.service_model.specs.Plans.{Feasible};
ghost use Rattle.stock_report.specs.Lines.{lines_of};
ghost use Rattle.stock_report.specs.Outcomes.{valid_row, not_accepted_row};

use crate::outcome::push_outcome;
use crate::text::{number, numbered, row_of, text_of_row};
use service_model::{Network, NoMemory, Verdict};
use stage_file::{Row, Text};
use std::alloc::Global;

/// What is printed for a certificate that is accepted with a verdict.
pub fn valid_text(alloc: Global, network: &Network, verdict: &Verdict) -> Result<Text, NoMemory>
    requires { IfSome verdict.now.plan (Feasible network.now) }
    ensures { IfOk result (λ text. text ≡ lines_of (valid_row network.now verdict.now ∷ [])) }
{
    let row = valid_row(alloc, network, verdict)?;
    text_of_row(alloc, row)
}

/// The row for a certificate that is accepted with a verdict.
pub fn valid_row(alloc: Global, network: &Network, verdict: &Verdict) -> Result<Row, NoMemory>
    requires { IfSome verdict.now.plan (Feasible network.now) }
    ensures { IfOk result (λ row. row ≡ valid_row network.now verdict.now) }
{
    let mut row = row_of(alloc, &["valid"])?;
    push_outcome(alloc, network, verdict, &mut row)?;
    Ok(row)
}

/// What is printed for one on which a rule fails, with the line and the rule.
pub fn not_accepted_text(alloc: Global, line: u64, rule: u8) -> Result<Text, NoMemory>
    ensures { IfOk result (λ text. text ≡ lines_of (not_accepted_row line rule ∷ [])) }
{
    let row = not_accepted_row(alloc, line, rule)?;
    text_of_row(alloc, row)
}

fn not_accepted_row(alloc: Global, line: u64, rule: u8) -> Result<Row, NoMemory>
    ensures { IfOk result (λ row. row ≡ not_accepted_row line rule) }
{
    let mut row = row_of(alloc, &["not accepted"])?;
    row.push(number(alloc, line)?)?;
    row.push(numbered(alloc, b"K", rule as u64)?)?;
    Ok(row)
}
