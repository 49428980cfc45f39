// Plans that can be repaired, and repairs that are feasible.
ghost use Rattle.std.specs.Prelude.{◌≡◌, ◌↔◌, IsTrue};
ghost use Rattle.service_model.specs.Plans.{HasTimes};
ghost use Rattle.service_model.specs.Repairs.{IsRepairable};
ghost use Rattle.end_rules.specs.Candidates.{IfFeasible};

use service_model::{Network, Plan};

fn has_times(network: &Network, plan: &Plan) -> bool
    ensures { IsTrue result ↔ HasTimes network.now plan.now }
{
    let stages = network.stages().len();
    plan.inbound.len() == stages && plan.outbound.len() == stages
}

/// Whether the plan has two times for each stage, none above its limit.
pub fn is_repairable(network: &Network, plan: &Plan) -> bool
    ensures { IsTrue result ↔ IsRepairable network.now plan.now }
{
    if !has_times(network, plan) {
        return false;
    }
    let stages = network.stages();
    'stages: for j in 0..stages.len() {
        if *plan.inbound.get(j) > network.horizon() || *plan.outbound.get(j) > stages.get(j).most {
            return false;
        }
    }
    true
}

/// The plan, where it is feasible.
pub fn if_feasible(network: &Network, plan: Plan) -> Option<Plan>
    requires { HasTimes network.now plan }
    ensures { IfFeasible network.now plan result }
{
    match network.first_break(&plan) {
        None => Some(plan),
        Some(_) => None,
    }
}
