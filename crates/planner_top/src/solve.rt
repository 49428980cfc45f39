// The answer of `solve`.
ghost use Rattle.std.specs.Prelude.{◌≡◌, ◌≤◌, ◌+◌, ◌-◌, ◌^◌, Some, IfOk, IfSome, length};
ghost use Rattle.service_model.specs.declared.cert_rules.TheConstants.{MAX_BUDGET};
ghost use Rattle.service_model.specs.Plans.{Feasible};
ghost use Rattle.service_model.specs.Verdicts.{IsTrueOf};
ghost use Rattle.tree_order.specs.Forest.{IsForest};
ghost use Rattle.network_check.specs.Checked.{IsChecked};
ghost use Rattle.stock_report.specs.Lines.{lines_of};
ghost use Rattle.cert_files.specs.Certificates.{bytes_in};
ghost use Rattle.planner_top.specs.Ready.{IsBudget};
ghost use Rattle.planner_top.specs.Done.{IsSolution, told_rows, ending_by};
ghost use Rattle.planner_top.specs.Answers.{IsTextOf};

use crate::answer::{Answer, Ending};
use crate::filled::MOST_FILLED;
use crate::search::cert_for;
use crate::task::Report;
use network_check::Checked;
use service_model::{Cert, NoMemory, Outcome, Verdict};
use stage_file::Text;
use std::alloc::Global;
use step_ledger::Steps;
use stock_report::{answer_text, trial_text};
use tree_order::Forest;

/// The least plan of a network with its report, or that there is none, or the best plan found where so many ranges were spent first,
/// and the certificate of the search.
pub fn solution_of<L>(
    alloc: Global,
    checked: &Checked,
    forest: &Forest,
    budget: u32,
    report: Report,
    steps: &mut Steps<L>,
) -> Result<Answer, NoMemory>
    requires checked { IsChecked checked.now }
    requires forest { IsForest (length checked.now.network.stages) checked.now.network.arcs forest.now }
    requires budget { IsBudget checked.now.network budget }
    requires room { steps.old ≤ 2 ^ 62 }
    ensures solution { IfOk result (λ a. IsTextOf a.text (λ rows. IsSolution a.ending rows (steps.new - steps.old) (bytes_in a.cert) checked.now forest.now budget report)) }
    ensures later { steps.old ≤ steps.new }
    ensures few { steps.new ≤ steps.old + MOST_FILLED }
{
    let before = steps.count();
    let cert = cert_for(alloc, &checked.network, forest, budget, steps)?;
    answer_with(alloc, checked, cert, report, steps.count() - before)
}

// The answer that a certificate shows.
#[tactic(auto, using(crate::proofs::SolveFacts::true_feasible))]
fn answer_with(
    alloc: Global,
    checked: &Checked,
    cert: Cert,
    report: Report,
    filled: u64,
) -> Result<Answer, NoMemory>
    requires checked { IsChecked checked.now }
    requires true_verdict { IsTrueOf checked.now.network cert.verdict }
    requires ranges { length cert.nodes ≤ MAX_BUDGET }
    requires filled { filled ≡ length cert.tables }
    ensures ending { IfOk result (λ a. a.ending ≡ ending_by cert.verdict.outcome) }
    ensures text { IfOk result (λ a. a.text ≡ lines_of (told_rows report checked.now cert.verdict (length cert.nodes) (length cert.tables))) }
    ensures cert { IfOk result (λ a. a.cert ≡ Some cert) }
{
    let ranges = cert.nodes.len() as u32;
    Ok(Answer {
        ending: ending_by(cert.verdict.outcome),
        text: told_text(alloc, checked, &cert.verdict, report, ranges, filled)?,
        cert: Some(cert),
    })
}

// What is printed for the verdict of a search.
fn told_text(
    alloc: Global,
    checked: &Checked,
    verdict: &Verdict,
    report: Report,
    ranges: u32,
    filled: u64,
) -> Result<Text, NoMemory>
    requires checked { IsChecked checked.now }
    requires feasible { IfSome verdict.now.plan (Feasible checked.now.network) }
    ensures { IfOk result (λ text. text ≡ lines_of (told_rows report checked.now verdict.now ranges filled)) }
{
    match report {
        Report::Stages => answer_text(alloc, checked, verdict, ranges, filled),
        Report::Trial(seed) => {
            trial_text(alloc, seed, &checked.network, verdict, ranges, filled)
        }
    }
}

fn ending_by(outcome: Outcome) -> Ending
    ensures { result ≡ ending_by outcome }
{
    match outcome {
        Outcome::Optimal => Ending::Done,
        Outcome::Infeasible => Ending::Infeasible,
        Outcome::Spent => Ending::Spent,
    }
}
