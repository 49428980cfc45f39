// The network of files with a budget of ranges.
ghost use Rattle.std.specs.Prelude.{◌≤◌};
ghost use Rattle.service_model.specs.declared.limits.TheConstants.{MAX_HORIZON};
ghost use Rattle.stage_file.specs.Raw.{AreFiles};

use network_check::{Checked, budget_of, check};
use stage_file::{Files, ReadFault};
use std::alloc::Global;

/// The network of files, and how many ranges a search of it may have.
#[derive(Drop)]
pub struct Budgeted {
    pub checked: Checked,
    pub budget: u32,
}

ghost use Rattle.edit_reuse.specs.Refusals.{IsAsked, BudgetedCase};

/// The network of files under a horizon with the budget that is asked, or else the default; or the first rule that fails, the one on the budget last.
#[tactic(auto, using(crate::proofs::BudgetFacts::are_budgeted, crate::proofs::BudgetFacts::budget_refused, crate::proofs::BudgetFacts::file_refused))]
pub fn budgeted_network(
    alloc: Global,
    files: &Files,
    horizon: u16,
    asked: Option<u32>,
) -> Result<Budgeted, ReadFault>
    requires horizon { horizon ≤ MAX_HORIZON }
    requires asked { IsAsked asked }
    requires countable { AreFiles files.now }
    ensures { BudgetedCase horizon asked files.now result }
{
    let checked = match check(alloc, files, horizon) {
        Ok(checked) => checked,
        Err(fault) => return Err(fault),
    };
    match budget_of(&checked.network, asked) {
        Ok(budget) => Ok(Budgeted { checked, budget }),
        Err(fault) => Err(ReadFault::Fault(fault)),
    }
}
