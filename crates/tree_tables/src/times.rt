// The times of a stage at which a value of its table is attained.
ghost use Rattle.std.specs.Prelude.{◌≡◌, ◌+◌, ◌<◌, ◌≤◌, ◌^◌, ℕ, All, length, slice_index};
ghost use Rattle.service_model.specs.Tables.{IsSized};
ghost use Rattle.tree_tables.specs.Fills.{IsFill};
ghost use Rattle.tree_tables.specs.Steps.{window, IsInWindow, Attains};
ghost use Rattle.tree_tables.specs.Sums.{local_at};

use crate::Filled;
use crate::local::LocalSums;
use crate::sums::{add_down_sums, add_up_sums};
use service_model::{INF, Kind, MAX_HORIZON, Network, Table};

// How many times there may be.
const TIMES: usize = MAX_HORIZON as usize + 1;

/// The times that a value covers: the inbound times before `to`, and the outbound times before `end`.
#[derive(Clone, Copy)]
pub struct Window {
    pub from: usize,
    pub to: usize,
    pub least: usize,
    pub end: usize,
}

/// The two times of a stage.
#[derive(Clone, Copy)]
pub struct Times {
    pub inbound: u16,
    pub outbound: u16,
}

/// The first times whose local sum is the table's value at a place. Apart from its caller, which calls itself, so that its lists
/// are gone before the next call.
#[inline(never)]
pub fn times_at(network: &Network, made: &[Filled], table: &Table, place: usize) -> Times
    requires filled { IsFill network.now made.now table.now }
    requires within { place < length table.now.values }
    requires reached { slice_index table.now.values place < INF }
    ensures { Attains network.now made.now table.now place result.inbound result.outbound }
{
    let times = network.horizon() as usize + 1;
    let mut down = [0u64; TIMES];
    let mut up = [0u64; TIMES];
    let down = &mut down[..times];
    let up = &mut up[..times];
    times_over(network, made, table, place, down, up)
}

// The same, with room for the sums over the children at each time up to the horizon.
fn times_over(
    network: &Network,
    made: &[Filled],
    table: &Table,
    place: usize,
    down: &mut [u64],
    up: &mut [u64],
) -> Times
    requires filled { IsFill network.now made.now table.now }
    requires within { place < length table.now.values }
    requires reached { slice_index table.now.values place < INF }
    requires down { All (λ x. x ≡ 0) down.old }
    requires down_times { length down.old ≡ network.now.horizon + 1 }
    requires up { All (λ x. x ≡ 0) up.old }
    requires up_times { length up.old ≡ network.now.horizon + 1 }
    ensures { Attains network.now made.now table.now place result.inbound result.outbound }
{
    let stage = network.stages().get(table.stage as usize);
    let children = table.children.as_slice();
    add_down_sums(network, made, table.stage, children, down);
    add_up_sums(network, made, table.stage, children, up);
    let sums = LocalSums::new(stage, down, up);
    least_times(&sums, window_of(network, table, place))
}

// The times that the table's value at a place covers.
fn window_of(network: &Network, table: &Table, place: usize) -> Window
    requires sized { IsSized network.now table.now }
    requires within { place < length table.now.values }
    ensures { result ≡ window table.now.kind network.now.horizon table.now.least table.now.most table.now.floor place }
{
    let from = table.floor as usize;
    let to = network.horizon() as usize + 1;
    let least = table.least as usize;
    let end = table.most as usize + 1;
    match table.kind {
        Kind::Down => Window {
            from,
            to,
            least: least + place,
            end: least + place + 1,
        },
        Kind::Up => Window {
            from: from + place,
            to: from + place + 1,
            least,
            end,
        },
        Kind::Root => Window {
            from,
            to,
            least,
            end,
        },
    }
}

// The times of the window with the least local sum.
fn least_times(sums: &LocalSums, window: Window) -> Times
    requires some_inbound { window.from < window.to }
    requires some_outbound { window.least < window.end }
    requires to { window.to ≤ length sums.now.down }
    requires end { window.end ≤ length sums.now.up }
    ensures within { IsInWindow window result.inbound result.outbound }
    ensures least { (i o : ℕ) → IsInWindow window i o → local_at sums.now result.inbound result.outbound ≤ local_at sums.now i o }
{
    // There are so few times that each is a `u16`.
    let _times = sums.times();
    let outbound = best_outbound(sums, window);
    let inbound = best_inbound(sums, window.from, window.to, outbound);
    Times {
        inbound: inbound as u16,
        outbound: outbound as u16,
    }
}

// The outbound time of the window at which some inbound time has the least local sum.
fn best_outbound(sums: &LocalSums, window: Window) -> usize
    requires some_inbound { window.from < window.to }
    requires some_outbound { window.least < window.end }
    requires to { window.to ≤ length sums.now.down }
    requires end { window.end ≤ length sums.now.up }
    ensures not_early { window.least ≤ result }
    ensures not_late { result < window.end }
    ensures least { (m : ℕ) → ((i : ℕ) → window.from ≤ i → i < window.to → m ≤ local_at sums.now i result)
        → (i o : ℕ) → IsInWindow window i o → m ≤ local_at sums.now i o }
{
    let mut best = window.least;
    let mut lowest = sums.least_inbound(window.from, window.to, best);
    'times: for outbound in window.least + 1..window.end {
        let least = sums.least_inbound(window.from, window.to, outbound);
        if least < lowest {
            best = outbound;
            lowest = least;
        }
    }
    best
}

// The inbound time of an interval with the least local sum at an outbound time.
fn best_inbound(sums: &LocalSums, from: usize, to: usize, outbound: usize) -> usize
    requires some { from < to }
    requires to { to ≤ length sums.now.down }
    requires outbound { outbound < length sums.now.up }
    ensures not_below { from ≤ result }
    ensures not_above { result < to }
    ensures least { (i : ℕ) → from ≤ i → i < to → local_at sums.now result outbound ≤ local_at sums.now i outbound }
{
    let mut best = from;
    let mut lowest = sums.at(best, outbound);
    'times: for inbound in from + 1..to {
        let sum = sums.at(inbound, outbound);
        if sum < lowest {
            best = inbound;
            lowest = sum;
        }
    }
    best
}
