// The top call.
ghost use Rattle.std.specs.Prelude.{◌≡◌, ◌≤◌, ◌+◌, ◌^◌, None, OnOk, OnErr, option_map, length};
ghost use Rattle.stage_file.specs.Records.{AreCountable};
ghost use Rattle.script_run.specs.Sizes.{MayGrow};
ghost use Rattle.script_run.specs.Runs.{KeepsUnnumbered};
ghost use Rattle.script_run.specs.Halts.{outside_of};
ghost use Rattle.planner_top.specs.Ready.{AreReadRows};
ghost use Rattle.planner_top.specs.Sessions.{KeepsNames};
ghost use Rattle.gsm_outside.specs.Causes.{HasCause};
ghost use Rattle.command_words.specs.Asked.{cert_name};
ghost use Rattle.cert_files.specs.Certificates.{bytes_in, put_cert, PutPart};
ghost use Rattle.planner_top.specs.Runs.{run_of, Follows, PartFollows, NeedNoFile};
ghost use Rattle.planner_top.specs.Endings.{status_of};
ghost use Rattle.planner_top.specs.StatusCases.{StatusCase, FaultCase, GivenCase, given_of, ToldCase, CarriedCase};
ghost use Rattle.planner_top.specs.Headline.{Headline};

use crate::answer::{Answer, Ending, Reply, Unanswered};
use crate::answering::answer_of;
use crate::filled::MOST_IN_SESSION;
use crate::status::Status;
use cert_files::write_cert;
use command_words::{FileWord, Words, cert_name};
use edit_reuse::Session;
use gsm_outside::{OutFault, Shelf, Sink};
use script_run::{Halt, carry_out};
use service_model::Cert;
use stage_file::{Rows, Text};
use std::alloc::Global;
use step_ledger::Steps;
use stock_report::{read_fault_text, write_fault_text};

/// Does all that the program does: reads the files that the words name, does what they ask, writes the certificate if they
/// ask for one, and prints the answer. The steps count the tables that are filled.
pub fn run<S: Shelf, K: Sink, L>(
    alloc: Global,
    words: &Words,
    shelf: &mut S,
    out: &mut K,
    steps: &mut Steps<L>,
) -> Status
    requires { steps.old ≤ 2 ^ 62 }
    ensures headline { Headline (run_of words.now (S.held shelf.old) (S.held shelf.new) (S.read_faults shelf.old) (S.read_faults shelf.new) (S.write_faults shelf.old) (S.write_faults shelf.new) (K.written out.old) (K.written out.new) (K.faults out.old) (K.faults out.new) steps.old steps.new result) }
    // Refused words and a trial leave the shelf as it is: nothing is fetched.
    ensures untouched { NeedNoFile words.now → shelf.new ≡ shelf.old }
{
    run_cases(alloc, words, shelf, out, steps)
}

// The same, by what the status says.
fn run_cases<S: Shelf, K: Sink, L>(
    alloc: Global,
    words: &Words,
    shelf: &mut S,
    out: &mut K,
    steps: &mut Steps<L>,
) -> Status
    requires { steps.old ≤ 2 ^ 62 }
    ensures case { StatusCase (run_of words.now (S.held shelf.old) (S.held shelf.new) (S.read_faults shelf.old) (S.read_faults shelf.new) (S.write_faults shelf.old) (S.write_faults shelf.new) (K.written out.old) (K.written out.new) (K.faults out.old) (K.faults out.new) steps.old steps.new result) result }
    ensures untouched { NeedNoFile words.now → shelf.new ≡ shelf.old }
    ensures held { KeepsNames words.now (S.held shelf.old) (S.held shelf.new) }
    ensures writes { cert_name words.now ≡ None → S.write_faults shelf.new ≡ S.write_faults shelf.old }
{
    match answer_of(alloc, words, shelf, steps) {
        Ok(Reply::Answer(answer)) => give(alloc, shelf, out, cert_name(words), answer),
        Ok(Reply::Session(mut session, script)) => {
            carry(
                alloc,
                &mut session,
                &script,
                cert_name(words),
                shelf,
                out,
                steps,
            )
        }
        Err(Unanswered::Fault(file)) => print_fault(alloc, out, file),
        Err(Unanswered::NoMemory) => Status::NoMemory,
    }
}

// Carries out the script of a session.
fn carry<S: Shelf, K: Sink, L>(
    alloc: Global,
    session: &mut Session,
    script: &Rows,
    name: Option<&str>,
    shelf: &mut S,
    out: &mut K,
    steps: &mut Steps<L>,
) -> Status
    requires countable { AreCountable script.now }
    requires read { AreReadRows script.now }
    requires grows { MayGrow session.old.files (length script.now) }
    requires room { steps.old ≤ 2 ^ 62 }
    ensures case { CarriedCase session.old script.now (option_map (λ s. s.now) name.entry) (outside_of (S.held shelf.old) (S.held shelf.new) (S.write_faults shelf.old) (S.write_faults shelf.new) (K.written out.old) (K.written out.new) (K.faults out.old) (K.faults out.new)) steps.old steps.new result }
    ensures reads { S.read_faults shelf.new ≡ S.read_faults shelf.old }
    ensures kept { KeepsUnnumbered (option_map (λ s. s.now) name.entry) (S.held shelf.old) (S.held shelf.new) }
    ensures unnamed { option_map (λ s. s.now) name.entry ≡ None → S.write_faults shelf.new ≡ S.write_faults shelf.old }
    ensures later { steps.old ≤ steps.new }
    ensures few { steps.new ≤ steps.old + MOST_IN_SESSION }
{
    match carry_out(alloc, session, script, name, shelf, out, steps) {
        Ok(()) => Status::Done,
        Err(Halt::Shelf) => print_unwritten(alloc, out),
        Err(Halt::Sink) => Status::WriteFault,
        Err(Halt::NoMemory) => Status::NoMemory,
    }
}

// Writes the certificate of an answer, where a name is asked for, and prints the answer.
fn give<S: Shelf, K: Sink>(
    alloc: Global,
    shelf: &mut S,
    out: &mut K,
    name: Option<&str>,
    answer: Answer,
) -> Status
    ensures case { GivenCase (given_of answer.ending answer.text (option_map (λ s. s.now) name.entry) (bytes_in answer.cert) (S.held shelf.old) (S.held shelf.new) (S.write_faults shelf.old) (S.write_faults shelf.new) (K.written out.old) (K.written out.new) (K.faults out.old) (K.faults out.new)) result }
    ensures untouched { option_map (λ s. s.now) name.entry ≡ None → shelf.new ≡ shelf.old }
    ensures writes { option_map (λ s. s.now) name.entry ≡ None → S.write_faults shelf.new ≡ S.write_faults shelf.old }
    ensures reads { S.read_faults shelf.new ≡ S.read_faults shelf.old }
{
    let Answer { ending, text, cert } = answer;
    match put_named(alloc, shelf, name, cert) {
        Ok(()) => match print(out, &text) {
            Ok(()) => status_of(ending),
            Err(OutFault::Failed) => Status::WriteFault,
            Err(OutFault::NoMemory) => Status::NoMemory,
        },
        Err(OutFault::Failed) => print_unwritten(alloc, out),
        Err(OutFault::NoMemory) => Status::NoMemory,
    }
}

// Writes a certificate where a name is asked for, and leaves the shelf as it is where none is.
fn put_named<S: Shelf>(
    alloc: Global,
    shelf: &mut S,
    name: Option<&str>,
    cert: Option<Cert>,
) -> Result<(), OutFault>
    ensures untouched { option_map (λ s. s.now) name.entry ≡ None → shelf.new ≡ shelf.old }
    ensures ok { OnOk result (S.held shelf.new ≡ put_cert (option_map (λ s. s.now) name.entry) (bytes_in cert) (S.held shelf.old)) }
    ensures err { OnErr result (PutPart (option_map (λ s. s.now) name.entry) (bytes_in cert) (S.held shelf.old) (S.held shelf.new)) }
    ensures none { option_map (λ s. s.now) name.entry ≡ None → S.write_faults shelf.new ≡ S.write_faults shelf.old }
    ensures cause { HasCause (S.write_faults shelf.old) (S.write_faults shelf.new) result }
    ensures reads { S.read_faults shelf.new ≡ S.read_faults shelf.old }
{
    match name {
        Some(_) => write_cert(alloc, shelf, name, cert),
        None => Ok(()),
    }
}

fn status_of(ending: Ending) -> Status
    ensures { result ≡ status_of ending }
{
    match ending {
        Ending::Done => Status::Done,
        Ending::Infeasible => Status::Infeasible,
        Ending::Spent => Status::Spent,
        Ending::Words => Status::Words,
        Ending::Refused => Status::Refused,
        Ending::TooLong => Status::TooLong,
        Ending::NotAccepted => Status::NotAccepted,
        Ending::NotFeasible => Status::NotFeasible,
    }
}

// Prints a text.
fn print<K: Sink>(out: &mut K, text: &Text) -> Result<(), OutFault>
    ensures ok { OnOk result (Follows (K.written out.old) text.now (K.written out.new)) }
    ensures err { OnErr result (PartFollows (K.written out.old) text.now (K.written out.new)) }
    ensures cause { HasCause (K.faults out.old) (K.faults out.new) result }
{
    out.put(text.as_slice())
}

// Prints that a file could not be read.
fn print_fault<K: Sink>(alloc: Global, out: &mut K, file: FileWord) -> Status
    ensures { FaultCase file (K.written out.old) (K.written out.new) (K.faults out.old) (K.faults out.new) result }
{
    let Ok(text) = read_fault_text(alloc, file) else {
        return Status::NoMemory;
    };
    match print(out, &text) {
        Ok(()) => Status::ReadFault,
        Err(OutFault::Failed) => Status::WriteFault,
        Err(OutFault::NoMemory) => Status::NoMemory,
    }
}

// Prints that the certificate could not be written.
fn print_unwritten<K: Sink>(alloc: Global, out: &mut K) -> Status
    ensures { ToldCase (K.written out.old) (K.written out.new) (K.faults out.old) (K.faults out.new) result }
{
    let Ok(text) = write_fault_text(alloc) else {
        return Status::NoMemory;
    };
    match print(out, &text) {
        Ok(()) => Status::WriteFault,
        Err(OutFault::Failed) => Status::WriteFault,
        Err(OutFault::NoMemory) => Status::NoMemory,
    }
}
