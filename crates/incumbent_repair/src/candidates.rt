// Repairs that are feasible.
ghost use Rattle.std.specs.Prelude.{◌≡◌};
ghost use Rattle.service_model.specs.Plans.{HasTimes};
ghost use Rattle.incumbent_repair.specs.Candidates.{IfFeasible};

use service_model::{Network, Plan};

/// The plan, where it is feasible.
pub fn if_feasible(network: &Network, plan: Plan) -> Option<Plan>
    requires { HasTimes network.now plan }
    ensures { IfFeasible network.now plan result }
{
    match network.first_break(&plan) {
        None => Some(plan),
        Some(_) => None,
    }
}
