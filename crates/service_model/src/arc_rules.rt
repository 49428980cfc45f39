// The rules on networks that speak of arcs, but for the one on cycles.
ghost use Rattle.std.specs.Prelude.{◌≡◌, ◌<◌, ◌^◌, ◌||◌, not, length, nat_lt, position, IfSome, IfOk, OnOk};
ghost use Rattle.service_model.specs.Faults.{fails_if, fails_below, has_bad_ends, has_long_transit, same_ends, stands_twice};
ghost use Rattle.service_model.specs.Ends.{has_ends};

use crate::faults::{ARC_COUNT, ARC_TWICE, fault_if};
use crate::{MAX_ARCS, MAX_TIME, NetworkFault, NoMemory, SupplyArc};
use std::alloc::Global;
use std::collections::BTreeSet;

pub(crate) fn arc_count_fault(arcs: &[SupplyArc]) -> Option<NetworkFault>
    requires { length arcs.now < 2 ^ 32 }
    ensures { result ≡ fails_if ARC_COUNT (nat_lt MAX_ARCS (length arcs.now)) (length arcs.now) }
{
    fault_if(ARC_COUNT, arcs.len() > MAX_ARCS, arcs.len() as u32)
}

pub(crate) fn ends_place(stages: usize, arcs: &[SupplyArc]) -> Option<usize>
    ensures value { result ≡ position (has_bad_ends stages) arcs.now }
    ensures within { IfSome result (λ k. k < length arcs.now) }
{
    arcs.iter().position(|arc| has_bad_ends(stages, arc))
}

#[tactic(auto, unfolding(crate::specs::Faults::has_bad_ends))]
fn has_bad_ends(stages: usize, arc: &SupplyArc) -> bool
    ensures { result ≡ has_bad_ends stages arc.now }
{
    arc.supplier as usize >= stages
        || arc.customer as usize >= stages
        || arc.supplier == arc.customer
}

// The first arc whose ends an earlier one has. A set of the ends that were met keeps this far below comparing each
// two arcs.
pub(crate) fn twice_fault(
    alloc: Global,
    arcs: &[SupplyArc],
) -> Result<Option<NetworkFault>, NoMemory>
    requires { length arcs.now < 2 ^ 32 }
    ensures { IfOk result (λ fault. fault ≡ fails_below ARC_TWICE (stands_twice arcs.now) (length arcs.now)) }
{
    let mut met = BTreeSet::new(alloc);
    'arcs: for a in 0..arcs.len() {
        if !insert_ends(&mut met, &arcs[a])? {
            return Ok(Some(NetworkFault {
                rule: ARC_TWICE,
                place: a as u32,
            }));
        }
    }
    Ok(None)
}

// Adds the ends of an arc, and tells whether they are new.
fn insert_ends(met: &mut BTreeSet<(u32, u32)>, arc: &SupplyArc) -> Result<bool, NoMemory>
    ensures new { IfOk result (λ new. new ≡ not (has_ends met.old arc.now)) }
    ensures met { OnOk result ((other : SupplyArc) → has_ends met.new other ≡ (has_ends met.old other || same_ends other arc.now)) }
{
    let new = met.insert((arc.supplier, arc.customer))?;
    Ok(new)
}

pub(crate) fn transit_place(arcs: &[SupplyArc]) -> Option<usize>
    ensures value { result ≡ position has_long_transit arcs.now }
    ensures within { IfSome result (λ k. k < length arcs.now) }
{
    arcs.iter().position(has_long_transit)
}

#[tactic(auto, unfolding(crate::specs::Faults::has_long_transit))]
fn has_long_transit(arc: &SupplyArc) -> bool
    ensures { result ≡ has_long_transit arc.now }
{
    arc.transit > MAX_TIME
}
