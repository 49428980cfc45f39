// The answer of `audit`.
ghost use Rattle.std.specs.Prelude.{◌≡◌, IfOk, None};
ghost use Rattle.service_model.specs.Plans.{HasTimes};
ghost use Rattle.network_check.specs.Checked.{IsChecked};
ghost use Rattle.planner_top.specs.Done.{IsAudit};
ghost use Rattle.planner_top.specs.Answers.{IsTextOf};

use crate::answer::{Answer, Ending};
use network_check::Checked;
use service_model::{NoMemory, Plan};
use std::alloc::Global;
use stock_report::audit_text;

/// What a plan costs with its report, or the first rule that it breaks.
pub fn audit_of(alloc: Global, checked: &Checked, plan: &Plan) -> Result<Answer, NoMemory>
    requires checked { IsChecked checked.now }
    requires times { HasTimes checked.now.network plan.now }
    ensures audit { IfOk result (λ a. IsTextOf a.text (λ rows. IsAudit a.ending rows checked.now plan.now)) }
    ensures none { IfOk result (λ a. a.cert ≡ None) }
{
    let text = audit_text(alloc, checked, plan)?;
    match checked.network.first_break(plan) {
        None => Ok(Answer {
            ending: Ending::Done,
            text,
            cert: None,
        }),
        Some(_) => Ok(Answer {
            ending: Ending::NotFeasible,
            text,
            cert: None,
        }),
    }
}
