// The repair that lets a stage wait for its inputs and quote as much more.
ghost use Rattle.std.specs.Prelude.{◌≡◌, ◌<◌, ◌≤◌, All, IfOk, Some, length, slice_index};
ghost use Rattle.service_model.specs.Plans.{HasTimes};
ghost use Rattle.service_model.specs.Networks.{IsNetwork};
ghost use Rattle.service_model.specs.Repairs.{Shift, IsRepairable, IsRepair};
ghost use Rattle.incumbent_repair.specs.Orders.{HasSuppliersFirst};
ghost use Rattle.incumbent_repair.specs.Inputs.{HasInputs, IsEarly, latest_input};
ghost use Rattle.incumbent_repair.specs.Shifts.{KeepsMost, with_shifted};
ghost use Rattle.incumbent_repair.specs.Candidates.{CandidateOf};

use crate::candidates::if_feasible;
use crate::inputs::inputs_of;
use service_model::{List, Network, NoMemory, Plan, SupplyArc};
use std::alloc::Global;

// The latest of a time and those at which the arcs bring what their suppliers quote.
#[tactic(auto, using(crate::proofs::InputFacts::latest_input_more))]
fn latest_input(arcs: &[SupplyArc], outbound: &List<u16>, time: u16) -> u16
    requires { All (IsEarly outbound.now) arcs.now }
    ensures { result ≡ latest_input arcs.now outbound.now time }
{
    let mut latest = time;
    for arc in arcs {
        latest = latest.max(*outbound.get(arc.supplier as usize) + arc.transit);
    }
    latest
}

// Lets one stage wait for its inputs as they are in the repair, and quote as much more.
fn shift_stage(
    network: &Network,
    inputs: &[List<SupplyArc>],
    stage: u32,
    plan: &Plan,
    repair: &mut Plan,
)
    requires stage { stage < length network.now.stages }
    requires inputs { HasInputs network.now inputs.now }
    requires plan { HasTimes network.now plan.now }
    requires repair { HasTimes network.now repair.old }
    requires most { KeepsMost network.now repair.old }
    ensures { repair.new ≡ with_shifted network.now plan.now repair.old stage }
{
    let at = stage as usize;
    let most = network.stages().get(at).most;
    let inbound = *plan.inbound.get(at);
    let latest = latest_input(inputs[at].as_slice(), &repair.outbound, inbound);
    let later = latest.saturating_sub(inbound);
    let outbound = (*plan.outbound.get(at)).saturating_add(later);
    repair.inbound.set(at, latest);
    repair.outbound.set(at, most.min(outbound));
}

// Each stage waits for its inputs as they are after the repair, and quotes as much more: stage by stage, suppliers first.
fn shifted_plan(
    alloc: Global,
    network: &Network,
    order: &List<u32>,
    plan: &Plan,
) -> Result<Plan, NoMemory>
    requires order { HasSuppliersFirst network.now order.now }
    requires plan { IsRepairable network.now plan.now }
    ensures repair { IfOk result (IsRepair Shift network.now plan.now) }
    ensures valid { IsNetwork network.now }
{
    let inputs = inputs_of(alloc, network)?;
    let mut repair = plan.copy(alloc)?;
    'order: for k in 0..order.len() {
        shift_stage(network, &inputs, *order.get(k), plan, &mut repair);
    }
    Ok(repair)
}

/// Each stage waits for its inputs as they are after the repair, and quotes as much more, but no more than it may: the
/// plan in which that is so, where it is feasible.
pub fn shift(
    alloc: Global,
    network: &Network,
    order: &List<u32>,
    plan: &Plan,
) -> Result<Option<Plan>, NoMemory>
    requires order { HasSuppliersFirst network.now order.now }
    requires plan { IsRepairable network.now plan.now }
    ensures { IfOk result (CandidateOf network.now (Some plan.now) Shift) }
{
    let repair = shifted_plan(alloc, network, order, plan)?;
    Ok(if_feasible(network, repair))
}
