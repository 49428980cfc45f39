// What `session` prints: a line for each record of its script, by the record's number, and one at the end.
ghost use Rattle.std.specs.Prelude.{◌≡◌, ◌∷◌, [], IfOk, IfSome, decimal};
ghost use Rattle.service_model.specs.Plans.{Feasible};
ghost use Rattle.stock_report.specs.Lines.{lines_of};
ghost use Rattle.stock_report.specs.Sessions.{edit_done_row, edit_fault_row, edit_refused_row, session_answer_row, session_end_row};

use crate::outcome::push_outcome;
use crate::refusal::push_file_fault;
use crate::text::{number, numbered, row_of, text_of_row};
use service_model::{List, Network, NoMemory, Verdict};
use stage_file::{FileFault, Row, Text};
use std::alloc::Global;

/// What is printed for an edit that was made.
pub fn edit_done_text(alloc: Global, place: u64) -> Result<Text, NoMemory>
    ensures { IfOk result (λ text. text ≡ lines_of (edit_done_row place ∷ [])) }
{
    let mut row = row_at(alloc, "edit", place)?;
    row.push(List::copied(alloc, b"done")?)?;
    text_of_row(alloc, row)
}

/// What is printed for a record on which a rule on edits fails, by the rule's number.
pub fn edit_fault_text(alloc: Global, place: u64, rule: u8) -> Result<Text, NoMemory>
    ensures { IfOk result (λ text. text ≡ lines_of (edit_fault_row place rule ∷ [])) }
{
    let mut row = row_at(alloc, "edit", place)?;
    row.push(numbered(alloc, b"E", rule as u64)?)?;
    text_of_row(alloc, row)
}

/// What is printed for an edit that was not made, since a rule on files fails on the edited files.
pub fn edit_refused_text(alloc: Global, place: u64, fault: FileFault) -> Result<Text, NoMemory>
    ensures { IfOk result (λ text. text ≡ lines_of (edit_refused_row place fault ∷ [])) }
{
    let mut row = row_at(alloc, "edit", place)?;
    push_file_fault(alloc, fault, &mut row)?;
    text_of_row(alloc, row)
}

/// What is printed for an answer, with how many ranges its search relaxed and how many tables were filled for it.
pub fn session_answer_text(
    alloc: Global,
    place: u64,
    network: &Network,
    verdict: &Verdict,
    ranges: u64,
    filled: u64,
) -> Result<Text, NoMemory>
    requires { IfSome verdict.now.plan (Feasible network.now) }
    ensures { IfOk result (λ text. text ≡ lines_of (session_answer_row place network.now verdict.now ranges filled ∷ [])) }
{
    let mut row = row_at(alloc, "solve", place)?;
    push_outcome(alloc, network, verdict, &mut row)?;
    row.push(number(alloc, ranges)?)?;
    row.push(number(alloc, filled)?)?;
    text_of_row(alloc, row)
}

/// What is printed at the end of a session, with the number of lines before.
pub fn session_end_text(alloc: Global, lines: u64) -> Result<Text, NoMemory>
    ensures { IfOk result (λ text. text ≡ lines_of (session_end_row lines ∷ [])) }
{
    let row = row_at(alloc, "end", lines)?;
    text_of_row(alloc, row)
}

// The first two fields of a row: a word and a number.
fn row_at(alloc: Global, word: &str, place: u64) -> Result<Row, NoMemory>
    ensures { IfOk result (λ row. row ≡ word.now ∷ decimal place ∷ []) }
{
    let mut row = row_of(alloc, &[word])?;
    row.push(number(alloc, place)?)?;
    Ok(row)
}
