// The answers of `check` and `explain`.
ghost use Rattle.std.specs.Prelude.{◌≡◌, ◌≤◌, length, IfOk, None};
ghost use Rattle.network_check.specs.Checked.{IsChecked};
ghost use Rattle.request_files.specs.declared.files.TheConstants.{CERT_LIMIT};
ghost use Rattle.planner_top.specs.Done.{IsCheck, AcceptedCase};
ghost use Rattle.planner_top.specs.Answers.{IsTextOf};

use crate::answer::{Answer, Ending};
use crate::task::Detail;
use cert_check::{CheckFault, check_bytes};
use cert_explain::explained;
use network_check::Checked;
use service_model::NoMemory;
use stage_file::Text;
use std::alloc::Global;
use stock_report::{not_accepted_text, valid_text};

/// What an accepted certificate says, or the first rule that fails on it, with its line.
pub fn check_of(
    alloc: Global,
    checked: &Checked,
    bytes: &[u8],
    detail: Detail,
) -> Result<Answer, NoMemory>
    requires checked { IsChecked checked.now }
    requires short { length bytes.now ≤ CERT_LIMIT }
    ensures check { IfOk result (λ a. IsTextOf a.text (λ rows. IsCheck a.ending rows checked.now bytes.now detail)) }
    ensures none { IfOk result (λ a. a.cert ≡ None) }
{
    match accepted_text(alloc, checked, bytes, detail) {
        Ok(text) => Ok(Answer {
            ending: Ending::Done,
            text,
            cert: None,
        }),
        Err(CheckFault::Fault(fault)) => Ok(Answer {
            ending: Ending::NotAccepted,
            text: not_accepted_text(alloc, fault.line, fault.rule)?,
            cert: None,
        }),
        Err(CheckFault::NoMemory) => Err(NoMemory),
    }
}

// What is printed of an accepted certificate: the verdict with which it is accepted, or its explanation.
fn accepted_text(
    alloc: Global,
    checked: &Checked,
    bytes: &[u8],
    detail: Detail,
) -> Result<Text, CheckFault>
    requires checked { IsChecked checked.now }
    requires short { length bytes.now ≤ CERT_LIMIT }
    ensures { AcceptedCase detail checked.now bytes.now result }
{
    match detail {
        Detail::Verdict => verdict_text(alloc, checked, bytes),
        Detail::Explanation => explained(alloc, checked, bytes),
    }
}

// The verdict with which a certificate is accepted.
#[tactic(auto, using(crate::proofs::SolveFacts::true_feasible))]
fn verdict_text(alloc: Global, checked: &Checked, bytes: &[u8]) -> Result<Text, CheckFault>
    requires { length bytes.now ≤ CERT_LIMIT }
    ensures { AcceptedCase Detail.Verdict checked.now bytes.now result }
{
    match check_bytes(alloc, &checked.network, bytes) {
        Ok(verdict) => match valid_text(alloc, &checked.network, &verdict) {
            Ok(text) => Ok(text),
            Err(NoMemory) => Err(CheckFault::NoMemory),
        },
        Err(fault) => Err(fault),
    }
}
