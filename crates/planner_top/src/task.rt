// From the bytes of files to what is to be done with their network.
ghost use Rattle.std.specs.Prelude.{◌≡◌, ◌≢◌, ◌≤◌, IfOk, IsTrue, length};
ghost use Rattle.service_model.specs.declared.limits.TheConstants.{MAX_HORIZON};
ghost use Rattle.stage_file.specs.Raw.{AreFiles, IsRawNet};
ghost use Rattle.stage_file.specs.Rows.{rows_of_bytes};
ghost use Rattle.stage_file.specs.Records.{AreCountable};
ghost use Rattle.stage_file.specs.Arcs.{names_of};
ghost use Rattle.stage_file.specs.PlanRecords.{plan_file_fault, plan_of};
ghost use Rattle.stage_file.specs.Faults.{Reads};
ghost use Rattle.network_check.specs.Checked.{IsNetworkOf, IsChecked};
ghost use Rattle.command_words.specs.Commands.{further_file};
ghost use Rattle.request_files.specs.Lengths.{AreShort, IsWithin};
ghost use Rattle.command_words.specs.Requests.{IsRanges};
ghost use Rattle.command_words.specs.Commands.{reads_network};
ghost use Rattle.command_words.specs.Requests.{IsTrialNumbers};
ghost use Rattle.planner_top.specs.Tasks.{files_in, IsLastFault, IsSearchOf};
ghost use Rattle.planner_top.specs.Ready.{AreReadRows, AreReadFiles, MayBeTold};
ghost use Rattle.planner_top.specs.TaskCases.{TaskCase, TogetherCase, LastCase, SearchCase, TrialCase};

use crate::stop::{Stop, Unsolved, unsolved_by};
use command_words::{Command, TrialNumbers};
use edit_reuse::Session;
use gsm_gen::make;
use network_check::{Checked, budget_of, check_records};
use request_files::{Contents, FILE_LIMIT};
use service_model::{NoMemory, Plan};
use stage_file::{Files, RawNet, ReadFault, Rows, Text, raw_net, read_plan, rows_of};
use std::alloc::Global;
use tree_order::{Forest, forest_of};

/// How the answer of a search is told.
#[derive(Clone, Copy, Debug, PartialEq, Eq)]
pub enum Report {
    /// Stage by stage.
    Stages,
    /// As a trial network that was made from this number.
    Trial(u64),
}

/// How an accepted certificate is told.
#[derive(Clone, Copy, Debug, PartialEq, Eq)]
pub enum Detail {
    Verdict,
    /// Its verdict, how its ranges were cut, and what binds its plan.
    Explanation,
}

/// What is to be done.
#[derive(Drop)]
pub enum Task {
    /// The least plan of the network is to be found, over its forest and with so many ranges at most.
    Solve(Checked, Forest, u32, Report),
    /// The plan is to be tested against the rules.
    Audit(Checked, Plan),
    /// The bytes of a certificate are to be tested against the rules.
    Check(Checked, Text, Detail),
    /// The bridges and clusters of the network are to be found.
    Clusters(Checked),
    /// The rows of a script are to be carried out on the files of a session.
    Session(Session, Rows),
}

/// What the command does with the network of files under a horizon, or the first rule on files that fails.
pub fn task_of(
    alloc: Global,
    command: Command,
    ranges: Option<u32>,
    horizon: u16,
    contents: Contents,
) -> Result<Task, Unsolved>
    requires network { IsTrue (reads_network command) }
    requires ranges { IsRanges ranges }
    requires horizon { horizon ≤ MAX_HORIZON }
    requires short { AreShort command contents }
    ensures { TaskCase command ranges horizon contents result }
{
    match command {
        Command::Session => session_task(alloc, ranges, horizon, contents),
        _ => network_task(alloc, command, ranges, horizon, contents),
    }
}

/// The search of a trial network, or the first rule that fails on the files that are made for it.
pub fn trial_of(
    alloc: Global,
    numbers: TrialNumbers,
    ranges: Option<u32>,
    horizon: u16,
) -> Result<Task, Unsolved>
    requires numbers { IsTrialNumbers numbers }
    requires ranges { IsRanges ranges }
    requires horizon { horizon ≤ MAX_HORIZON }
    ensures { TrialCase numbers ranges horizon result }
{
    let files = make(alloc, numbers.seed, numbers.stages, numbers.extra, horizon)?;
    match raw_net(alloc, &files, horizon) {
        Ok(raw) => match check_records(alloc, &raw) {
            Ok(checked) => solve_task(alloc, ranges, &raw, checked, Report::Trial(numbers.seed)),
            Err(refused) => Err(unsolved_by(refused)),
        },
        Err(fault) => Err(unsolved_by(fault)),
    }
}

// The session over files under a horizon, or the first rule on files that fails.
fn session_task(
    alloc: Global,
    ranges: Option<u32>,
    horizon: u16,
    contents: Contents,
) -> Result<Task, Unsolved>
    requires ranges { IsRanges ranges }
    requires horizon { horizon ≤ MAX_HORIZON }
    requires short { AreShort Command.Session contents }
    ensures { TaskCase Command.Session ranges horizon contents result }
{
    let files = files_of(alloc, &contents)?;
    let script = rows_in(alloc, contents.further.as_slice())?;
    match Session::new(alloc, files, horizon, ranges) {
        Ok(session) => Ok(Task::Session(session, script)),
        Err(fault) => Err(unsolved_by(fault)),
    }
}

// What another command does with the network of files under a horizon, or the first rule on files that fails.
fn network_task(
    alloc: Global,
    command: Command,
    ranges: Option<u32>,
    horizon: u16,
    contents: Contents,
) -> Result<Task, Unsolved>
    requires network { IsTrue (reads_network command) }
    requires command { command ≢ Command.Session }
    requires ranges { IsRanges ranges }
    requires horizon { horizon ≤ MAX_HORIZON }
    requires short { AreShort command contents }
    ensures { TaskCase command ranges horizon contents result }
{
    let files = files_of(alloc, &contents)?;
    match raw_net(alloc, &files, horizon) {
        Ok(raw) => task_in(alloc, command, ranges, &raw, contents.further),
        Err(fault) => Err(unsolved_by(fault)),
    }
}

// The rows of the three files of a network.
fn files_of(alloc: Global, contents: &Contents) -> Result<Files, NoMemory>
    requires stages { length contents.now.stages ≤ FILE_LIMIT }
    requires tables { length contents.now.tables ≤ FILE_LIMIT }
    requires arcs { length contents.now.arcs ≤ FILE_LIMIT }
    ensures value { IfOk result (λ files. files ≡ files_in contents.now) }
    ensures countable { IfOk result AreFiles }
    ensures few { IfOk result AreReadFiles }
{
    Ok(Files {
        stages: rows_in(alloc, contents.stages.as_slice())?,
        tables: rows_in(alloc, contents.tables.as_slice())?,
        arcs: rows_in(alloc, contents.arcs.as_slice())?,
    })
}

// The rows of a file that is not too long: few enough to be numbered.
fn rows_in(alloc: Global, bytes: &[u8]) -> Result<Rows, NoMemory>
    requires { length bytes.now ≤ FILE_LIMIT }
    ensures value { IfOk result (λ rows. rows ≡ rows_of_bytes bytes.now) }
    ensures countable { IfOk result AreCountable }
    ensures few { IfOk result AreReadRows }
{
    let rows = rows_of(alloc, bytes)?;
    Ok(rows)
}

// What the command does with the network of records, or the first rule on them together or behind that fails.
fn task_in(
    alloc: Global,
    command: Command,
    ranges: Option<u32>,
    raw: &RawNet,
    further: Text,
) -> Result<Task, Unsolved>
    requires network { IsTrue (reads_network command) }
    requires command { command ≢ Command.Session }
    requires ranges { IsRanges ranges }
    requires horizon { raw.now.horizon ≤ MAX_HORIZON }
    requires read { IsRawNet raw.now }
    requires short { IsWithin (further_file command) further }
    ensures { TogetherCase command ranges raw.now further result }
{
    match check_records(alloc, raw) {
        Ok(checked) => last_of(alloc, command, ranges, raw, checked, further),
        Err(refusal) => Err(unsolved_by(refusal)),
    }
}

// The task, or the first rule that fails behind those on the network.
fn last_of(
    alloc: Global,
    command: Command,
    ranges: Option<u32>,
    raw: &RawNet,
    checked: Checked,
    further: Text,
) -> Result<Task, Unsolved>
    requires network { IsTrue (reads_network command) }
    requires command { command ≢ Command.Session }
    requires ranges { IsRanges ranges }
    requires read { IsRawNet raw.now }
    requires made { IsNetworkOf raw.now checked }
    requires checked { IsChecked checked }
    requires short { IsWithin (further_file command) further }
    ensures { LastCase command ranges raw.now further result }
{
    match command {
        Command::Solve => solve_task(alloc, ranges, raw, checked, Report::Stages),
        Command::Audit => match plan_in(alloc, raw, further.as_slice()) {
            Ok(plan) => Ok(Task::Audit(checked, plan)),
            Err(fault) => Err(unsolved_by(fault)),
        },
        Command::Check => Ok(Task::Check(checked, further, Detail::Verdict)),
        Command::Explain => Ok(Task::Check(checked, further, Detail::Explanation)),
        Command::Clusters => Ok(Task::Clusters(checked)),
        Command::Session | Command::Trial => unreachable!(),
    }
}

// The plan of a plan file.
fn plan_in(alloc: Global, raw: &RawNet, further: &[u8]) -> Result<Plan, ReadFault>
    requires read { IsRawNet raw.now }
    requires short { length further.now ≤ FILE_LIMIT }
    ensures { Reads (plan_file_fault (names_of raw.now.stages) (rows_of_bytes further.now)) (plan_of (names_of raw.now.stages) (rows_of_bytes further.now)) result }
{
    let rows = rows_in(alloc, further)?;
    read_plan(alloc, &rows, &raw.stages)
}

// The least plan is to be found within a budget, or the rule on the budget fails.
fn solve_task(
    alloc: Global,
    ranges: Option<u32>,
    raw: &RawNet,
    checked: Checked,
    report: Report,
) -> Result<Task, Unsolved>
    requires ranges { IsRanges ranges }
    requires made { IsNetworkOf raw.now checked }
    requires checked { IsChecked checked }
    requires told { MayBeTold report checked.network }
    ensures { SearchCase ranges raw.now report result }
{
    match budget_of(&checked.network, ranges) {
        Ok(budget) => {
            let forest = forest_of(alloc, &checked.network)?;
            Ok(Task::Solve(checked, forest, budget, report))
        }
        Err(fault) => Err(Unsolved::Stop(Stop::Refused(fault))),
    }
}
