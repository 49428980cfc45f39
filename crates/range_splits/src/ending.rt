// How a search ends.
ghost use Rattle.std.specs.Prelude.{◌≡◌, ◌≤◌, ◌↔◌, ◌^◌, IfSome, IsTrue};
ghost use Rattle.service_model.specs.Plans.{Feasible};
ghost use Rattle.service_model.specs.Verdicts.{Closes};
ghost use Rattle.range_splits.specs.Open.{IsEndingOf, ending_bound};

use service_model::{INF, Network, Outcome, Plan};

// Whether the plan found costs at most the least bound.
fn closes(network: &Network, found: &Option<Plan>, least: u64) -> bool
    requires { IfSome found.now (Feasible network.now) }
    ensures { IsTrue result ↔ Closes network.now found.now least }
{
    match found {
        Some(plan) => network.cost(plan) <= least,
        None => false,
    }
}

/// The outcome with which a search ends that has so many nodes, this least bound of a leaf and this plan found; none where
/// it goes on.
pub fn ending_of(
    network: &Network,
    budget: u32,
    nodes: usize,
    least: u64,
    found: &Option<Plan>,
) -> Option<Outcome>
    requires { IfSome found.now (Feasible network.now) }
    ensures { IsEndingOf network.now found.now least nodes budget result }
{
    if closes(network, found, least) {
        Some(Outcome::Optimal)
    } else if least == INF {
        Some(Outcome::Infeasible)
    } else if nodes >= budget as usize || nodes + 1 == budget as usize {
        Some(Outcome::Spent)
    } else {
        None
    }
}

/// The bound of a search that ends so.
pub fn ending_bound(network: &Network, outcome: Outcome, least: u64, found: &Option<Plan>) -> u64
    requires { IfSome found.now (Feasible network.now) }
    ensures { result ≡ ending_bound outcome network.now found.now least }
{
    match outcome {
        Outcome::Optimal => match found {
            Some(plan) => network.cost(plan),
            None => INF,
        },
        Outcome::Infeasible => INF,
        Outcome::Spent => least,
    }
}
