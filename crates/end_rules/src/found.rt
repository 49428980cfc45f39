// The best plan that repairs find.
ghost use Rattle.std.specs.Prelude.{◌≡◌, IfOk, IfSome, Some, length};
ghost use Rattle.service_model.specs.Orders.{IsTopological};
ghost use Rattle.service_model.specs.Plans.{Feasible};
ghost use Rattle.service_model.specs.Repairs.{IsRepairable, FoundOf, better};

use crate::candidates::is_repairable;
use crate::raise_lower::{lowered, raised};
use crate::shift::shifted;
use service_model::{List, Network, NoMemory, Plan};
use std::alloc::Global;

/// Keeps the earlier plan unless the later one costs less.
pub fn keep_better(network: &Network, found: &mut Option<Plan>, later: Option<Plan>)
    requires earlier { IfSome found.old (Feasible network.now) }
    requires later { IfSome later (Feasible network.now) }
    ensures { found.new ≡ better network.now found.old later }
{
    let Some(next) = later else {
        return;
    };
    let wins = match found {
        None => true,
        Some(earlier) => network.cost(&next) < network.cost(earlier),
    };
    if wins {
        *found = Some(next);
    }
}

// The best of the feasible repairs of one plan, the first among equals.
fn best_repair(
    alloc: Global,
    network: &Network,
    order: &List<u32>,
    plan: &Plan,
) -> Result<Option<Plan>, NoMemory>
    requires order { IsTopological (length network.now.stages) network.now.arcs order.now }
    requires plan { IsRepairable network.now plan.now }
    ensures { IfOk result (FoundOf network.now (Some plan.now)) }
{
    let mut best = raised(alloc, network, plan)?;
    let second = lowered(alloc, network, plan)?;
    keep_better(network, &mut best, second);
    let third = shifted(alloc, network, order, plan)?;
    keep_better(network, &mut best, third);
    Ok(best)
}

/// The best plan that the three repairs of one relaxed plan find, none where no repair is feasible. The order has
/// suppliers first.
pub fn found_of(
    alloc: Global,
    network: &Network,
    order: &List<u32>,
    relaxed: &Option<Plan>,
) -> Result<Option<Plan>, NoMemory>
    requires order { IsTopological (length network.now.stages) network.now.arcs order.now }
    ensures { IfOk result (FoundOf network.now relaxed.now) }
{
    let Some(plan) = relaxed else {
        return Ok(None);
    };
    if !is_repairable(network, plan) {
        return Ok(None);
    }
    best_repair(alloc, network, order, plan)
}
