// The plan that the values of the roots stand for.
ghost use Rattle.std.specs.Prelude.{◌≡◌, ◌<◌, IfOk, MatchOption, length};
ghost use Rattle.std.specs.List.{AllByRecursion};
ghost use Rattle.service_model.specs.Plans.{HasTimes};
ghost use Rattle.service_model.specs.Nodes.{bound_of, AreTightBelow};
ghost use Rattle.gsm_laws.specs.Traces.{IsWhole};
ghost use Rattle.arc_relax.specs.Relaxations.{IsTracedPlan};

use service_model::{INF, List, Network, NoMemory, Plan};
use std::alloc::Global;
use tree_tables::{Filled, trace};

fn no_times(alloc: Global, stages: usize) -> Result<List<u16>, NoMemory>
    ensures { IfOk result (λ times. length times ≡ stages) }
{
    Ok(List::from_vec(vec![in alloc; 0u16; stages]?))
}

// A plan in which all times are 0.
fn blank_plan(alloc: Global, stages: usize) -> Result<Plan, NoMemory>
    ensures inbound { IfOk result (λ plan. length plan.inbound ≡ stages) }
    ensures outbound { IfOk result (λ plan. length plan.outbound ≡ stages) }
{
    Ok(Plan {
        inbound: no_times(alloc, stages)?,
        outbound: no_times(alloc, stages)?,
    })
}

// The plan that costs the roots' values.
fn plan_of(
    alloc: Global,
    network: &Network,
    made: &[Filled],
    roots: &[u32],
) -> Result<Plan, NoMemory>
    requires tight { AllByRecursion (AreTightBelow network.now made.now) roots.now }
    requires whole { IsWhole network.now made.now roots.now }
    requires below { bound_of made.now roots.now < INF }
    ensures { IfOk result (IsTracedPlan network.now made.now roots.now (bound_of made.now roots.now)) }
{
    let mut plan = blank_plan(alloc, network.stages().len())?;
    'roots: for root in roots {
        trace(network, made, *root, &mut plan);
    }
    Ok(plan)
}

/// The plan that costs the bound, where that is below `INF`.
pub fn plan_below(
    alloc: Global,
    network: &Network,
    made: &[Filled],
    roots: &[u32],
    bound: u64,
) -> Result<Option<Plan>, NoMemory>
    requires tight { AllByRecursion (AreTightBelow network.now made.now) roots.now }
    requires whole { IsWhole network.now made.now roots.now }
    requires bound { bound ≡ bound_of made.now roots.now }
    ensures { IfOk result (λ plan. MatchOption plan (bound ≡ INF) (IsTracedPlan network.now made.now roots.now bound)) }
{
    if bound < INF {
        let plan = plan_of(alloc, network, made, roots)?;
        Ok(Some(plan))
    } else {
        Ok(None)
    }
}
