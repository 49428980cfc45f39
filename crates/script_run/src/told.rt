// What is told of a row of a script, once its step was carried out.
ghost use Rattle.std.specs.Prelude.{◌≡◌, ◌≤◌, ◌+◌, ◌<◌, ◌^◌, [], ◌∷◌, length, Ok, None, IfOk};
ghost use Rattle.network_check.specs.declared.budget.TheConstants.{MOST_VALUES};
ghost use Rattle.stock_report.specs.Lines.{lines_of};
ghost use Rattle.stock_report.specs.Sessions.{edit_fault_row};
ghost use Rattle.edit_script.specs.Steps.{step_of, IsWhole};
ghost use Rattle.edit_reuse.specs.Edits.{HasRoom, IsShort, GrowByTwo};
ghost use Rattle.script_run.specs.Runs.{cert_list, tables_in};
ghost use Rattle.script_run.specs.Told.{ToldCase};

use crate::edit_rules::{FIELD_NUMBER, UNKNOWN_NAME, UNKNOWN_WORD};
use edit_reuse::{Session, SessionFault};
use edit_script::{Edit, EditFault, Step, read_row};
use service_model::{Cert, NoMemory};
use stage_file::{Row, Text};
use std::alloc::Global;
use step_ledger::Steps;
use stock_report::{edit_done_text, edit_fault_text, edit_refused_text, session_answer_text};

/// The line of a row, and the certificate that is written before it, where an answer was asked for.
#[derive(Drop)]
pub struct Told {
    pub text: Text,
    pub cert: Option<Cert>,
}

/// Carries out the step of a row.
pub fn told_of<L>(
    alloc: Global,
    session: &mut Session,
    row: &Row,
    number: u64,
    steps: &mut Steps<L>,
) -> Result<Told, NoMemory>
    requires short { length row.now < 2 ^ 32 }
    requires room { HasRoom session.old.files }
    requires counts { steps.old + MOST_VALUES ≤ 2 ^ 63 }
    ensures told { ToldCase session.old number (step_of row.now) session.new result }
    ensures grown { GrowByTwo session.old.files session.new.files }
    ensures filled { IfOk result (λ t. steps.new ≡ steps.old + tables_in (cert_list t.cert)) }
    ensures later { steps.old ≤ steps.new }
    ensures few { steps.new ≤ steps.old + MOST_VALUES }
{
    match read_row(alloc, row) {
        Ok(Step::Solve) => answered(alloc, session, number, steps),
        Ok(Step::Change(edit)) => edited(alloc, session, number, &edit),
        Err(EditFault::Word) => refused(alloc, number, UNKNOWN_WORD),
        Err(EditFault::Count) => refused(alloc, number, FIELD_NUMBER),
        Err(EditFault::NoMemory) => Err(NoMemory),
    }
}

// The answer of the session as it stands.
fn answered<L>(
    alloc: Global,
    session: &mut Session,
    number: u64,
    steps: &mut Steps<L>,
) -> Result<Told, NoMemory>
    requires counts { steps.old + MOST_VALUES ≤ 2 ^ 63 }
    ensures told { ToldCase session.old number (Ok Step.Solve) session.new result }
    ensures grown { GrowByTwo session.old.files session.new.files }
    ensures filled { IfOk result (λ t. steps.new ≡ steps.old + tables_in (cert_list t.cert)) }
    ensures later { steps.old ≤ steps.new }
    ensures few { steps.new ≤ steps.old + MOST_VALUES }
{
    let before = steps.count();
    let cert = session.solve(steps)?;
    let network = &session.checked().network;
    let _stages = network.stages().len();
    let text = session_answer_text(
        alloc,
        number,
        network,
        &cert.verdict,
        cert.nodes.len() as u64,
        steps.count() - before,
    )?;
    Ok(Told {
        text,
        cert: Some(cert),
    })
}

// An edit made, or the rule that refuses it.
fn edited(alloc: Global, session: &mut Session, number: u64, edit: &Edit) -> Result<Told, NoMemory>
    requires whole { IsWhole edit.now }
    requires short { IsShort edit.now }
    requires room { HasRoom session.old.files }
    ensures told { ToldCase session.old number (Ok (Step.Change edit.now)) session.new result }
    ensures none { IfOk result (λ t. t.cert ≡ None) }
    ensures grown { GrowByTwo session.old.files session.new.files }
{
    match session.edit(edit) {
        Ok(()) => Ok(line_alone(edit_done_text(alloc, number)?)),
        Err(SessionFault::Unknown) => Ok(line_alone(edit_fault_text(alloc, number, UNKNOWN_NAME)?)),
        Err(SessionFault::File(fault)) => Ok(line_alone(edit_refused_text(alloc, number, fault)?)),
        Err(SessionFault::NoMemory) => Err(NoMemory),
    }
}

// A line without a certificate.
fn line_alone(text: Text) -> Told
    ensures text { result.text ≡ text }
    ensures none { result.cert ≡ None }
{
    Told { text, cert: None }
}

// A row that says no step.
fn refused(alloc: Global, number: u64, rule: u8) -> Result<Told, NoMemory>
    ensures text { IfOk result (λ t. t.text ≡ lines_of (edit_fault_row number rule ∷ [])) }
    ensures none { IfOk result (λ t. t.cert ≡ None) }
{
    Ok(line_alone(edit_fault_text(alloc, number, rule)?))
}
