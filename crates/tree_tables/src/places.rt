// The place of a child's least value that its parent's times allow.
ghost use Rattle.std.specs.Prelude.{◌≡◌, ◌<◌, ◌≤◌, ℕ, length, slice_index};
ghost use Rattle.service_model.specs.LocalSums.{least_below};
ghost use Rattle.tree_tables.specs.Steps.{IsChildPlace};

use crate::times::Times;
use service_model::{INF, Kind, Network, Table};

/// The first place at which a child has the least of its values that these times of its parent allow.
pub fn child_place(network: &Network, child: &Table, parent: &Table, times: Times) -> usize
    requires { least_below network.now parent.now times.inbound times.outbound child.now < INF }
    ensures { IsChildPlace network.now child.now parent.now times.inbound times.outbound result }
{
    let values = child.values.as_slice();
    match child.kind {
        Kind::Down => {
            let transit = network.transit_between(child.stage, parent.stage);
            let shift = child.least as usize + transit as usize;
            let end = (times.inbound as usize + 1).saturating_sub(shift);
            least_place(values, 0, end.min(values.len()))
        }
        Kind::Up => {
            let transit = network.transit_between(parent.stage, child.stage);
            let earliest = times.outbound as usize + transit as usize;
            let from = earliest.saturating_sub(child.floor as usize);
            least_place(values, from, values.len())
        }
        Kind::Root => unreachable!(),
    }
}

// The first place of the least of the values between two places.
fn least_place(values: &[u64], from: usize, to: usize) -> usize
    requires some { from < to }
    requires to { to ≤ length values.now }
    ensures not_before { from ≤ result }
    ensures not_after { result < to }
    ensures least { (k : ℕ) → from ≤ k → k < to → slice_index values.now result ≤ slice_index values.now k }
{
    let mut place = from;
    'places: for k in from + 1..to {
        if values[k] < values[place] {
            place = k;
        }
    }
    place
}
