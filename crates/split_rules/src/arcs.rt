// The arc that a split names.
ghost use Rattle.std.specs.Prelude.{◌≡◌, ◌<◌, ◌↔◌, IfSome, IsTrue, length};
ghost use Rattle.service_model.specs.Plans.{HasTimes};
ghost use Rattle.service_model.specs.Tables.{Supplies};
ghost use Rattle.split_rules.specs.Halves.{last_of};
ghost use Rattle.split_rules.specs.Arcs.{IsTransit, Breaks};

use service_model::{Network, Plan, Split};

/// The transit of the arc between two stages, none where there is no arc. It takes one pass over the arcs.
fn transit_between(network: &Network, supplier: u32, customer: u32) -> Option<u16>
    ensures value { IsTransit network.now.arcs supplier customer result }
    ensures ends { IfSome result (λ transit. (supplier < length network.now.stages) × (customer < length network.now.stages)) }
{
    'arcs: for a in 0..network.arcs().len() {
        let arc = network.arcs().get(a);
        if arc.supplier == supplier && arc.customer == customer {
            return Some(arc.transit);
        }
    }
    None
}

/// Whether the split names an arc that the plan breaks.
pub fn breaks_arc(network: &Network, plan: &Plan, split: Split) -> bool
    requires { HasTimes network.now plan.now }
    ensures { IsTrue result ↔ Breaks network.now plan.now split }
{
    match transit_between(network, split.supplier, split.customer) {
        None => false,
        Some(transit) => {
            let quoted = *plan.outbound.get(split.supplier as usize) as u32;
            let inbound = *plan.inbound.get(split.customer as usize) as u32;
            inbound < quoted + transit as u32
        }
    }
}

/// The last outbound time of the split's supplier that the plan's customer waits for, 0 where it waits for none.
pub fn last_of(network: &Network, plan: &Plan, split: Split) -> u16
    requires times { HasTimes network.now plan.now }
    requires arc { Supplies network.now.arcs split.supplier split.customer }
    ensures { result ≡ last_of network.now plan.now split }
{
    let Some(transit) = transit_between(network, split.supplier, split.customer) else {
        unreachable!();
    };
    let inbound = *plan.inbound.get(split.customer as usize);
    inbound.saturating_sub(transit)
}
