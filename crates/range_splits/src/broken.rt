// The arc that a plan breaks most.
ghost use Rattle.std.specs.Prelude.{◌≡◌, ◌+◌, ◌<◌, ◌≤◌, ◌^◌, All, Some, MatchOption, option_map, length};
ghost use Rattle.service_model.specs.Net.{arc_in};
ghost use Rattle.service_model.specs.Plans.{HasTimes, Meets};
ghost use Rattle.range_splits.specs.Breaks.{lateness, IsMostBroken, IsMostSoFar, late_of};

use service_model::{Network, Plan, SupplyArc};

// An arc, and how much too late its supplier's output comes for its customer.
#[derive(Clone, Copy, Drop)]
struct Broken {
    arc: u32,
    late: u32,
}

// How much too late the supplier's output comes for the customer.
fn lateness(plan: &Plan, arc: &SupplyArc) -> u32
    requires supplier { arc.now.supplier < length plan.now.outbound }
    requires customer { arc.now.customer < length plan.now.inbound }
    ensures { result ≡ lateness plan.now arc.now }
{
    let arrival = *plan.outbound.get(arc.supplier as usize) as u32 + arc.transit as u32;
    arrival.saturating_sub(*plan.inbound.get(arc.customer as usize) as u32)
}

// The one that is broken more, the earlier among equals.
fn more_broken(best: Option<Broken>, arc: u32, late: u32) -> Option<Broken>
    ensures more { late_of best < late → result ≡ Some (record { arc = arc; late = late }) }
    ensures same { late ≤ late_of best → result ≡ best }
{
    let most = best.map_or(0, |broken| broken.late);
    if late > most {
        Some(Broken { arc, late })
    } else {
        best
    }
}

fn arc_of(best: Option<Broken>) -> Option<u32>
    ensures { result ≡ option_map (λ x. x.arc) best }
{
    best.map(|broken| broken.arc)
}

/// The number of the arc that the plan breaks most, the lowest among equals, none where it meets all arcs.
pub fn broken_arc(network: &Network, plan: &Plan) -> Option<u32>
    requires { HasTimes network.now plan.now }
    ensures { MatchOption result (All (Meets plan.now) network.now.arcs) (IsMostBroken network.now plan.now) }
{
    let mut best: Option<Broken> = None;
    'arcs: for a in 0..network.arcs().len() {
        let late = lateness(plan, network.arcs().get(a));
        best = more_broken(best, a as u32, late);
    }
    arc_of(best)
}
