// The whole range of a network, and the floors of inbound times in a range.
ghost use Rattle.std.specs.Prelude.{◌≡◌, ◌+◌, ◌<◌, ◌≤◌, IfOk, length, max, min, slice_index, slice_set};
ghost use Rattle.service_model.specs.Ranges.{start_by};

use crate::{List, MAX_HORIZON, Network, NoMemory, Range, SupplyArc};
use std::alloc::Global;

impl Network {
    ghost use Rattle.service_model.specs.Ranges.{whole_of, HasIntervals, AreFloors, floor_of};

    /// The range of all outbound times that the stages may quote.
    pub fn whole(&self, alloc: Global) -> Result<Range, NoMemory>
        ensures value { IfOk result (λ range. range ≡ whole_of self.now) }
        ensures within { IfOk result (HasIntervals self.now) }
    {
        let stages = self.stages().as_slice();
        Ok(Range {
            least: List::from_vec(stages.iter().map(|stage| stage.least).collect(alloc)?),
            most: List::from_vec(stages.iter().map(|stage| stage.most).collect(alloc)?),
        })
    }

    /// The least inbound time of a stage in a range; the horizon and 1 where the horizon is too short for any.
    #[tactic(auto, using(crate::proofs::FloorFacts::latest_start_more))]
    pub fn floor(&self, range: &Range, stage: u32) -> u16
        requires stage { stage < length self.now.stages }
        requires range { HasIntervals self.now range.now }
        ensures { result ≡ floor_of self.now range.now stage }
    {
        let mut latest = self.stages().get(stage as usize).supply as u32;
        'arcs: for a in 0..self.arcs().len() {
            latest = start_by(self.arcs().get(a), &range.least, stage, latest);
        }
        latest.min(self.horizon() as u32 + 1) as u16
    }

    /// The floors of all stages in a range, by one pass over the arcs.
    pub fn floors(&self, alloc: Global, range: &Range) -> Result<List<u16>, NoMemory>
        requires { HasIntervals self.now range.now }
        ensures { IfOk result (AreFloors self.now range.now) }
    {
        let stages = self.stages().as_slice();
        let mut floors = List::from_vec(stages.iter().map(|stage| stage.supply).collect(alloc)?);
        'arcs: for a in 0..self.arcs().len() {
            raise_floor(
                &mut floors,
                self.arcs().get(a),
                &range.least,
                self.horizon(),
            );
        }
        Ok(floors)
    }
}

// The later of a start and the one that an arc gives a stage.
fn start_by(arc: &SupplyArc, starts: &List<u16>, stage: u32, start: u32) -> u32
    requires { arc.now.supplier < length starts.now }
    ensures { result ≡ start_by arc.now starts.now stage start }
{
    if arc.customer == stage {
        start.max(*starts.get(arc.supplier as usize) as u32 + arc.transit as u32)
    } else {
        start
    }
}

// Raises the customer's floor to the start that an arc gives it, or to the horizon and 1 where that is less.
fn raise_floor(floors: &mut List<u16>, arc: &SupplyArc, starts: &List<u16>, horizon: u16)
    requires supplier { arc.now.supplier < length starts.now }
    requires customer { arc.now.customer < length floors.old }
    requires horizon { horizon ≤ MAX_HORIZON }
    ensures { let latest = min (horizon + 1) (slice_index starts.now arc.now.supplier + arc.now.transit) in
        floors.new ≡ slice_set floors.old arc.now.customer (max (slice_index floors.old arc.now.customer) latest) }
{
    let start = *starts.get(arc.supplier as usize) as u32 + arc.transit as u32;
    let latest = start.min(horizon as u32 + 1) as u16;
    let floor = *floors.get(arc.customer as usize);
    floors.set(arc.customer as usize, floor.max(latest));
}
