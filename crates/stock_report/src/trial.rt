// What `trial` prints.
ghost use Rattle.std.specs.Prelude.{◌≡◌, IfOk, IfSome};
ghost use Rattle.service_model.specs.Plans.{Feasible};
ghost use Rattle.stock_report.specs.Lines.{lines_of};
ghost use Rattle.stock_report.specs.Trials.{trial_row, trial_rows};

use crate::answer::{filled_row, outcome_row, ranges_row};
use crate::text::{number, row_of, text_of};
use service_model::{List, Network, NoMemory, Verdict};
use stage_file::{Row, Rows, Text};
use std::alloc::Global;

/// What is printed of a trial: a network that was made from a number, the verdict of its search, and that the certificate passes every
/// rule, which is for the caller to know.
pub fn trial_text(
    alloc: Global,
    seed: u64,
    network: &Network,
    verdict: &Verdict,
    ranges: u32,
    filled: u64,
) -> Result<Text, NoMemory>
    requires { IfSome verdict.now.plan (Feasible network.now) }
    ensures { IfOk result (λ text. text ≡ lines_of (trial_rows seed network.now verdict.now ranges filled)) }
{
    let rows = trial_rows(alloc, seed, network, verdict, ranges, filled)?;
    text_of(alloc, rows.as_slice())
}

fn trial_rows(
    alloc: Global,
    seed: u64,
    network: &Network,
    verdict: &Verdict,
    ranges: u32,
    filled: u64,
) -> Result<Rows, NoMemory>
    requires { IfSome verdict.now.plan (Feasible network.now) }
    ensures { IfOk result (λ rows. rows ≡ trial_rows seed network.now verdict.now ranges filled) }
{
    let mut rows = List::new(alloc);
    rows.push(trial_row(alloc, seed, network)?)?;
    rows.push(outcome_row(alloc, network, verdict)?)?;
    rows.push(ranges_row(alloc, ranges)?)?;
    rows.push(filled_row(alloc, filled)?)?;
    rows.push(row_of(alloc, &["check", "valid"])?)?;
    Ok(rows)
}

// The number that a network was made from, and how large it is.
fn trial_row(alloc: Global, seed: u64, network: &Network) -> Result<Row, NoMemory>
    ensures { IfOk result (λ row. row ≡ trial_row seed network.now) }
{
    let mut row = row_of(alloc, &["trial"])?;
    row.push(number(alloc, seed)?)?;
    row.push(number(alloc, network.stages().len() as u64)?)?;
    row.push(number(alloc, network.arcs().len() as u64)?)?;
    Ok(row)
}
