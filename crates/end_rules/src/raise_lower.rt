// The repairs that change only one of a stage's two times.
ghost use Rattle.std.specs.Prelude.{◌≡◌, ◌+◌, ◌-◌, ◌<◌, ◌^◌, IfOk, Some, length, max, min, slice_index, slice_set};
ghost use Rattle.service_model.specs.Networks.{IsNetwork};
ghost use Rattle.service_model.specs.Repairs.{Raise, Lower, IsRepairable};
ghost use Rattle.end_rules.specs.Times.{AreArrivals, AreNeeds};
ghost use Rattle.end_rules.specs.Candidates.{CandidateOf};

use crate::candidates::if_feasible;
use service_model::{List, Network, NoMemory, Plan, SupplyArc};
use std::alloc::Global;

// Raises the customer's time to the one at which the arc brings its input.
fn raise_time(times: &mut List<u16>, arc: &SupplyArc, outbound: &List<u16>)
    requires supplier { arc.now.supplier < length outbound.now }
    requires customer { arc.now.customer < length times.old }
    requires arrival { slice_index outbound.now arc.now.supplier + arc.now.transit < 2 ^ 16 }
    ensures { let arrival = slice_index outbound.now arc.now.supplier + arc.now.transit in
        times.new ≡ slice_set times.old arc.now.customer (max arrival (slice_index times.old arc.now.customer)) }
{
    let arrival = *outbound.get(arc.supplier as usize) + arc.transit;
    let customer = arc.customer as usize;
    let time = *times.get(customer);
    times.set(customer, arrival.max(time));
}

// Lowers the supplier's time to the one by which the customer needs its output.
fn lower_time(times: &mut List<u16>, arc: &SupplyArc, inbound: &List<u16>)
    requires supplier { arc.now.supplier < length times.old }
    requires customer { arc.now.customer < length inbound.now }
    ensures { let need = slice_index inbound.now arc.now.customer - arc.now.transit in
        times.new ≡ slice_set times.old arc.now.supplier (min need (slice_index times.old arc.now.supplier)) }
{
    let need = (*inbound.get(arc.customer as usize)).saturating_sub(arc.transit);
    let supplier = arc.supplier as usize;
    let time = *times.get(supplier);
    times.set(supplier, need.min(time));
}

// The times at which the stages have all their inputs.
fn arrivals(alloc: Global, network: &Network, plan: &Plan) -> Result<List<u16>, NoMemory>
    requires { IsRepairable network.now plan.now }
    ensures arrivals { IfOk result (AreArrivals network.now plan.now) }
    ensures valid { IsNetwork network.now }
{
    let arcs = network.arcs();
    let mut times = List::copied(alloc, plan.inbound.as_slice())?;
    'arcs: for a in 0..arcs.len() {
        raise_time(&mut times, arcs.get(a), &plan.outbound);
    }
    Ok(times)
}

// The times by which all customers need the stages' outputs.
fn needs(alloc: Global, network: &Network, plan: &Plan) -> Result<List<u16>, NoMemory>
    requires { IsRepairable network.now plan.now }
    ensures needs { IfOk result (AreNeeds network.now plan.now) }
    ensures valid { IsNetwork network.now }
{
    let arcs = network.arcs();
    let mut times = List::copied(alloc, plan.outbound.as_slice())?;
    'arcs: for a in 0..arcs.len() {
        lower_time(&mut times, arcs.get(a), &plan.inbound);
    }
    Ok(times)
}

/// Each stage waits until it has all its inputs: the plan in which that is so, where it is feasible.
pub fn raised(alloc: Global, network: &Network, plan: &Plan) -> Result<Option<Plan>, NoMemory>
    requires { IsRepairable network.now plan.now }
    ensures { IfOk result (CandidateOf network.now (Some plan.now) Raise) }
{
    let inbound = arrivals(alloc, network, plan)?;
    let outbound = List::copied(alloc, plan.outbound.as_slice())?;
    Ok(if_feasible(network, Plan { inbound, outbound }))
}

/// Each stage quotes what all its customers wait for: the plan in which that is so, where it is feasible.
pub fn lowered(alloc: Global, network: &Network, plan: &Plan) -> Result<Option<Plan>, NoMemory>
    requires { IsRepairable network.now plan.now }
    ensures { IfOk result (CandidateOf network.now (Some plan.now) Lower) }
{
    let inbound = List::copied(alloc, plan.inbound.as_slice())?;
    let outbound = needs(alloc, network, plan)?;
    Ok(if_feasible(network, Plan { inbound, outbound }))
}
