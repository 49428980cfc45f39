// The rules on verdicts.
ghost use Rattle.std.specs.Prelude.{◌≡◌, ◌↔◌, ◌+◌, ◌<◌, ◌≤◌, IfSome, IsSomeAnd, IsTrue, length};
ghost use Rattle.service_model.specs.Networks.{IsNetwork};
ghost use Rattle.service_model.specs.Plans.{Feasible, cost_of};
ghost use Rattle.service_model.specs.Held.{Held, budget_of, relaxed_of, roots_of, cuts_of};
ghost use Rattle.service_model.specs.Repairs.{Found};
ghost use Rattle.service_model.specs.Verdicts.{IsLeastBound, Closes, EndsWith, ending_plan};
ghost use Rattle.service_model.specs.CertRules.{EndRule, IsFirstOf};

use service_model::cert_rules::{PLAN, VERDICT};
use service_model::{INF, Network, Outcome, Plan, Verdict};

// The rules on networks hold of each network.
fn network_law(network: &Network)
    ensures { IsNetwork network.now }
{
    let _horizon = network.horizon();
}

// Whether a plan is found that costs at most the least bound.
fn closes(network: &Network, found: &Option<Plan>, least: u64) -> bool
    requires { IfSome found.now (Feasible network.now) }
    ensures { IsTrue result ↔ Closes network.now found.now least }
{
    match found {
        None => false,
        Some(plan) => network.cost(plan) <= least,
    }
}

// Whether a plan is found that costs the bound, and at most the least bound.
fn is_optimal(network: &Network, found: &Option<Plan>, least: u64, bound: u64) -> bool
    requires { IfSome found.now (Feasible network.now) }
    ensures { IsTrue result ↔ IsSomeAnd found.now (λ p. (cost_of network.now p ≤ least) × (bound ≡ cost_of network.now p)) }
{
    match found {
        None => false,
        Some(plan) => {
            let cost = network.cost(plan);
            cost <= least && bound == cost
        }
    }
}

// Whether so many nodes leave no room for two more.
fn is_spent(budget: u32, nodes: usize) -> bool
    ensures { IsTrue result ↔ (budget < nodes + 2) }
{
    (budget as usize).saturating_sub(nodes) < 2
}

// Whether a search ends with the verdict's outcome and bound.
fn ends_as_told(
    network: &Network,
    budget: u32,
    nodes: usize,
    least: u64,
    found: &Option<Plan>,
    verdict: &Verdict,
) -> bool
    requires { IfSome found.now (Feasible network.now) }
    ensures { IsTrue result ↔ EndsWith verdict.now.outcome network.now found.now least nodes budget verdict.now.bound }
{
    let bound = verdict.bound;
    match verdict.outcome {
        Outcome::Optimal => is_optimal(network, found, least, bound),
        Outcome::Infeasible => !closes(network, found, least) && least == INF && bound == INF,
        Outcome::Spent => {
            !closes(network, found, least)
                && least != INF
                && is_spent(budget, nodes)
                && bound == least
        }
    }
}

// Whether two plans are equal, or there is none.
fn same_plan(a: &Option<Plan>, b: &Option<Plan>) -> bool
    ensures { IsTrue result ↔ (a.now ≡ b.now) }
{
    match (a, b) {
        (None, None) => true,
        (Some(a), Some(b)) => {
            a.inbound.as_slice() == b.inbound.as_slice()
                && a.outbound.as_slice() == b.outbound.as_slice()
        }
        _ => false,
    }
}

// Whether the verdict's plan is that of the ending.
fn has_ending_plan(found: &Option<Plan>, verdict: &Verdict) -> bool
    ensures { IsTrue result ↔ (verdict.now.plan ≡ ending_plan verdict.now.outcome found.now) }
{
    match verdict.outcome {
        Outcome::Infeasible => verdict.plan.is_none(),
        Outcome::Optimal | Outcome::Spent => same_plan(&verdict.plan, found),
    }
}

/// The first rule on verdicts that fails, none where both hold. `least` is the least bound of a leaf, `found` the plan
/// found, `nodes` how many nodes came.
pub fn end_fault(
    network: &Network,
    budget: u32,
    nodes: usize,
    least: u64,
    found: &Option<Plan>,
    verdict: &Verdict,
) -> Option<u8>
    requires found { IfSome found.now (Feasible network.now) }
    ensures first { (h : Held) → Found network.now (relaxed_of h) found.now
        → IsLeastBound h.tables (roots_of h) (cuts_of network.now h) least → length h.nodes ≡ nodes → budget_of h ≡ budget
        → IsFirstOf (EndRule network.now h verdict.now) result }
{
    network_law(network);
    if !ends_as_told(network, budget, nodes, least, found, verdict) {
        return Some(VERDICT);
    }
    if !has_ending_plan(found, verdict) {
        return Some(PLAN);
    }
    None
}
