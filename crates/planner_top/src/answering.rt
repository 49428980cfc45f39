// From the words to the answer.
ghost use Rattle.std.specs.Prelude.{◌≡◌, ◌≢◌, ◌≤◌, ◌+◌, ◌-◌, ◌^◌, None, IfOk, OnErr};
ghost use Rattle.command_words.specs.Requests.{request_as, IsRequest};
ghost use Rattle.planner_top.specs.Ready.{IsReady};
ghost use Rattle.planner_top.specs.Runs.{NeedNoFile};
ghost use Rattle.planner_top.specs.Problems.{ProblemCase, AskedCase, ReplyCase, AnswerCase, UnsolvedCase};

use crate::answer::{Answer, Reply, Unanswered};
use crate::audit::audit_of;
use crate::check::check_of;
use crate::clustered::clusters_of;
use crate::filled::MOST_FILLED;
use crate::refusal::refusal_of;
use crate::solve::solution_of;
use crate::stop::{Stop, Unsolved, unsolved_as};
use crate::task::{Task, task_of, trial_of};
use command_words::{Request, Words, request_of};
use gsm_outside::Shelf;
use request_files::read_files;
use service_model::NoMemory;
use std::alloc::Global;
use step_ledger::Steps;

/// The answer to the words, with the text that is printed, or the session that they ask for. The steps count the tables that are filled.
pub fn answer_of<S: Shelf, L>(
    alloc: Global,
    words: &Words,
    shelf: &mut S,
    steps: &mut Steps<L>,
) -> Result<Reply, Unanswered>
    requires { steps.old ≤ 2 ^ 62 }
    ensures case { AnswerCase words.now (S.held shelf.old) (S.read_faults shelf.old) (S.read_faults shelf.new) steps.old steps.new result }
    ensures untouched { NeedNoFile words.now → shelf.new ≡ shelf.old }
    ensures held { S.held shelf.new ≡ S.held shelf.old }
    ensures writes { S.write_faults shelf.new ≡ S.write_faults shelf.old }
{
    match problem_of(alloc, words, shelf) {
        Ok(task) => Ok(reply_to(alloc, task, steps)?),
        Err(unsolved) => Ok(Reply::Answer(unsolved_answer(alloc, unsolved)?)),
    }
}

// The answer where there is nothing to do.
fn unsolved_answer(alloc: Global, unsolved: Unsolved) -> Result<Answer, Unanswered>
    ensures { UnsolvedCase unsolved result }
{
    match unsolved {
        Unsolved::Stop(stop) => Ok(refusal_of(alloc, stop)?),
        Unsolved::Fault(file) => Err(Unanswered::Fault(file)),
        Unsolved::NoMemory => Err(Unanswered::NoMemory),
    }
}

// What the words ask to be done.
fn problem_of<S: Shelf>(alloc: Global, words: &Words, shelf: &mut S) -> Result<Task, Unsolved>
    ensures case { ProblemCase words.now (S.held shelf.old) (S.read_faults shelf.old) (S.read_faults shelf.new) result }
    ensures untouched { NeedNoFile words.now → shelf.new ≡ shelf.old }
    ensures held { S.held shelf.new ≡ S.held shelf.old }
    ensures writes { S.write_faults shelf.new ≡ S.write_faults shelf.old }
{
    match request_of(words) {
        Ok(request) => asked_problem(alloc, &request, shelf),
        Err(fault) => Err(Unsolved::Stop(Stop::Words(fault))),
    }
}

// What a request asks to be done.
fn asked_problem<S: Shelf>(
    alloc: Global,
    request: &Request<'_>,
    shelf: &mut S,
) -> Result<Task, Unsolved>
    requires { IsRequest request.now }
    ensures case { AskedCase (request_as request.now) (S.held shelf.old) (S.read_faults shelf.old) (S.read_faults shelf.new) result }
    ensures untouched { request.now.trial ≢ None → shelf.new ≡ shelf.old }
    ensures held { S.held shelf.new ≡ S.held shelf.old }
    ensures writes { S.write_faults shelf.new ≡ S.write_faults shelf.old }
{
    match request.trial {
        Some(numbers) => trial_of(alloc, numbers, request.ranges, request.horizon),
        None => files_problem(alloc, request, shelf),
    }
}

// What a request asks to be done with its files.
fn files_problem<S: Shelf>(
    alloc: Global,
    request: &Request<'_>,
    shelf: &mut S,
) -> Result<Task, Unsolved>
    requires known { IsRequest request.now }
    requires files { request.now.trial ≡ None }
    ensures case { AskedCase (request_as request.now) (S.held shelf.old) (S.read_faults shelf.old) (S.read_faults shelf.new) result }
    ensures held { S.held shelf.new ≡ S.held shelf.old }
    ensures writes { S.write_faults shelf.new ≡ S.write_faults shelf.old }
{
    match read_files(alloc, shelf, request) {
        Ok(contents) => task_of(
            alloc,
            request.command,
            request.ranges,
            request.horizon,
            contents,
        ),
        Err(unread) => Err(unsolved_as(unread)),
    }
}

// The task done, but for a session, which is carried out as its lines are printed.
fn reply_to<L>(alloc: Global, task: Task, steps: &mut Steps<L>) -> Result<Reply, NoMemory>
    requires ready { IsReady task }
    requires room { steps.old ≤ 2 ^ 62 }
    ensures done { IfOk result (ReplyCase task steps.old steps.new) }
    ensures later { steps.old ≤ steps.new }
    ensures few { steps.new ≤ steps.old + MOST_FILLED }
{
    match task {
        Task::Solve(checked, forest, budget, report) => {
            let answer = solution_of(alloc, &checked, &forest, budget, report, steps)?;
            Ok(Reply::Answer(answer))
        }
        Task::Audit(checked, plan) => {
            let answer = audit_of(alloc, &checked, &plan)?;
            Ok(Reply::Answer(answer))
        }
        Task::Check(checked, bytes, detail) => {
            let answer = check_of(alloc, &checked, bytes.as_slice(), detail)?;
            Ok(Reply::Answer(answer))
        }
        Task::Clusters(checked) => {
            let answer = clusters_of(alloc, &checked)?;
            Ok(Reply::Answer(answer))
        }
        Task::Session(session, script) => Ok(Reply::Session(session, script)),
    }
}
