// Carrying out a script row by row.
ghost use Rattle.std.specs.Prelude.{◌≡◌, ◌≤◌, ◌<◌, ◌+◌, ◌*◌, ◌^◌, None, length, option_map};
ghost use Rattle.network_check.specs.declared.budget.TheConstants.{MOST_VALUES};
ghost use Rattle.stage_file.specs.Records.{AreCountable};
ghost use Rattle.edit_script.specs.Edited.{holds_record};
ghost use Rattle.edit_reuse.specs.Edits.{HasRoom, GrowByTwo};
ghost use Rattle.script_run.specs.Runs.{cert_list, KeepsUnnumbered};
ghost use Rattle.script_run.specs.Halts.{outside_of, CarryCase};
ghost use Rattle.script_run.specs.Progress.{RowStepCase, RowCaseBy, EndCase};
ghost use Rattle.script_run.specs.Sizes.{MayGrow};

use crate::give::give_under;
use crate::halt::Halt;
use crate::told::{Told, told_of};
use edit_reuse::Session;
use edit_script::holds_record;
use gsm_outside::{OutFault, Shelf, Sink};
use stage_file::{Row, Rows};
use std::alloc::Global;
use step_ledger::Steps;
use stock_report::session_end_text;

/// How many lines and certificates were given so far.
#[derive(Clone, Copy)]
pub struct Count {
    pub lines: u64,
    pub certs: u64,
}

/// Carries out the rows of a script, in turn. The k-th answer's certificate is written under the name with `-` and k behind, where a name
/// is given, before its line is put; behind the rows stands the line that says how many held a record. Each table is a step.
pub fn carry_out<S: Shelf, K: Sink, L>(
    alloc: Global,
    session: &mut Session,
    script: &Rows,
    name: Option<&str>,
    shelf: &mut S,
    out: &mut K,
    steps: &mut Steps<L>,
) -> Result<(), Halt>
    requires countable { AreCountable script.now }
    requires grows { MayGrow session.old.files (length script.now) }
    requires counts { steps.old + MOST_VALUES * length script.now ≤ 2 ^ 63 }
    ensures case { CarryCase session.old session.new script.now (option_map (λ n. n.now) name.entry) (outside_of (S.held shelf.old) (S.held shelf.new) (S.write_faults shelf.old) (S.write_faults shelf.new) (K.written out.old) (K.written out.new) (K.faults out.old) (K.faults out.new)) steps.old steps.new result }
    ensures kept { KeepsUnnumbered (option_map (λ n. n.now) name.entry) (S.held shelf.old) (S.held shelf.new) }
    ensures reads { S.read_faults shelf.new ≡ S.read_faults shelf.old }
    ensures later { steps.old ≤ steps.new }
    ensures few { steps.new ≤ steps.old + MOST_VALUES * length script.now }
    ensures unnamed { option_map (λ n. n.now) name.entry ≡ None → S.write_faults shelf.new ≡ S.write_faults shelf.old }
{
    let mut count = Count { lines: 0, certs: 0 };
    'rows: for k in 0..script.len() {
        let row = script.get(k);
        let number = k as u64 + 1;
        match carry_row(
            alloc, session, row, number, name, &mut count, shelf, out, steps,
        ) {
            Ok(()) => {}
            Err(halt) => return Err(halt),
        }
    }
    put_end(alloc, count.lines, out)
}

// Carries out a row; one that holds no record is passed over.
fn carry_row<S: Shelf, K: Sink, L>(
    alloc: Global,
    session: &mut Session,
    row: &Row,
    number: u64,
    name: Option<&str>,
    count: &mut Count,
    shelf: &mut S,
    out: &mut K,
    steps: &mut Steps<L>,
) -> Result<(), Halt>
    requires short { length row.now < 2 ^ 32 }
    requires room { HasRoom session.old.files }
    requires counts { steps.old + MOST_VALUES ≤ 2 ^ 63 }
    requires lines { count.old.lines < 2 ^ 32 }
    requires certs { count.old.certs < 2 ^ 32 }
    ensures case { RowCaseBy (holds_record row.now) session.old number row.now session.new (option_map (λ n. n.now) name.entry) (outside_of (S.held shelf.old) (S.held shelf.new) (S.write_faults shelf.old) (S.write_faults shelf.new) (K.written out.old) (K.written out.new) (K.faults out.old) (K.faults out.new)) steps.old steps.new count.old count.new result }
    ensures grown { GrowByTwo session.old.files session.new.files }
    ensures reads { S.read_faults shelf.new ≡ S.read_faults shelf.old }
    ensures later { steps.old ≤ steps.new }
    ensures few { steps.new ≤ steps.old + MOST_VALUES }
    ensures unnamed { option_map (λ n. n.now) name.entry ≡ None → S.write_faults shelf.new ≡ S.write_faults shelf.old }
{
    if !holds_record(row) {
        return Ok(());
    }
    carry_record(alloc, session, row, number, name, count, shelf, out, steps)
}

// Carries out a row that holds a record, and gives what it tells.
fn carry_record<S: Shelf, K: Sink, L>(
    alloc: Global,
    session: &mut Session,
    row: &Row,
    number: u64,
    name: Option<&str>,
    count: &mut Count,
    shelf: &mut S,
    out: &mut K,
    steps: &mut Steps<L>,
) -> Result<(), Halt>
    requires short { length row.now < 2 ^ 32 }
    requires room { HasRoom session.old.files }
    requires counts { steps.old + MOST_VALUES ≤ 2 ^ 63 }
    requires lines { count.old.lines < 2 ^ 32 }
    requires certs { count.old.certs < 2 ^ 32 }
    ensures case { RowStepCase session.old number row.now session.new (option_map (λ n. n.now) name.entry) (outside_of (S.held shelf.old) (S.held shelf.new) (S.write_faults shelf.old) (S.write_faults shelf.new) (K.written out.old) (K.written out.new) (K.faults out.old) (K.faults out.new)) steps.old steps.new count.old count.new result }
    ensures grown { GrowByTwo session.old.files session.new.files }
    ensures reads { S.read_faults shelf.new ≡ S.read_faults shelf.old }
    ensures later { steps.old ≤ steps.new }
    ensures few { steps.new ≤ steps.old + MOST_VALUES }
    ensures unnamed { option_map (λ n. n.now) name.entry ≡ None → S.write_faults shelf.new ≡ S.write_faults shelf.old }
{
    let told = told_of(alloc, session, row, number, steps)?;
    let certs = certs_of(&told);
    give_under(alloc, told, name, count.certs + 1, shelf, out)?;
    count.lines += 1;
    count.certs += certs;
    Ok(())
}

// How many certificates are told: one or none.
fn certs_of(told: &Told) -> u64
    ensures value { result ≡ length (cert_list told.now.cert) }
    ensures within { result ≤ 1 }
{
    match &told.cert {
        Some(_) => 1,
        None => 0,
    }
}

// Puts the line behind all others.
fn put_end<K: Sink>(alloc: Global, lines: u64, out: &mut K) -> Result<(), Halt>
    ensures { EndCase lines (K.written out.old) (K.written out.new) (K.faults out.old) (K.faults out.new) result }
{
    let text = session_end_text(alloc, lines)?;
    match out.put(text.as_slice()) {
        Ok(()) => Ok(()),
        Err(OutFault::Failed) => Err(Halt::Sink),
        Err(OutFault::NoMemory) => Err(Halt::NoMemory),
    }
}
