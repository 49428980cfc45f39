// What the children of a table cost at least, at each of its stage's times.
ghost use Rattle.std.specs.Prelude.{◌≡◌, ◌+◌, ◌-◌, ◌<◌, ◌≤◌, ◌^◌, All, EachIndex, drop, length, slice_index, take};
ghost use Rattle.service_model.specs.Tables.{IsSized};
ghost use Rattle.service_model.specs.LocalSums.{capped, least_of};
ghost use Rattle.tree_tables.specs.Fills.{AreChildren};
ghost use Rattle.tree_tables.specs.Sums.{AreDownSums, AreUpSums, down_part, up_part};

use crate::Filled;
use service_model::{INF, Kind, Network, Table, capped_add};

/// Adds what the children cost at least at each inbound time to sums of 0.
pub fn add_down_sums(
    network: &Network,
    made: &[Filled],
    stage: u32,
    children: &[u32],
    sums: &mut [u64],
)
    requires children { AreChildren network.now made.now stage children.now }
    requires zero { All (λ x. x ≡ 0) sums.old }
    ensures { AreDownSums network.now.arcs made.now stage children.now sums.new }
{
    'children: for child in children {
        add_down(network, made[*child as usize].table(), stage, sums);
    }
}

/// Adds what the children cost at least at each outbound time to sums of 0.
pub fn add_up_sums(
    network: &Network,
    made: &[Filled],
    stage: u32,
    children: &[u32],
    sums: &mut [u64],
)
    requires children { AreChildren network.now made.now stage children.now }
    requires zero { All (λ x. x ≡ 0) sums.old }
    requires long { network.now.horizon < length sums.old }
    requires short { length sums.old < 2 ^ 32 }
    ensures { AreUpSums network.now.arcs made.now stage children.now sums.new }
{
    'children: for child in children {
        add_up(network, made[*child as usize].table(), stage, sums);
    }
}

// Adds what a child costs at least at each inbound time.
fn add_down(network: &Network, child: &Table, stage: u32, sums: &mut [u64])
    requires sums { All (λ x. x ≤ INF) sums.old }
    ensures { EachIndex sums.new (λ i. slice_index sums.new i ≡ capped (slice_index sums.old i + down_part child.now.kind network.now.arcs child.now stage i)) }
{
    if child.kind == Kind::Down {
        let transit = network.transit_between(child.stage, stage);
        let shift = child.least as usize + transit as usize;
        add_front_leasts(child.values.as_slice(), shift, sums);
    }
}

// Adds what a child costs at least at each outbound time.
fn add_up(network: &Network, child: &Table, stage: u32, sums: &mut [u64])
    requires child { IsSized network.now child.now }
    requires sums { All (λ x. x ≤ INF) sums.old }
    requires long { network.now.horizon < length sums.old }
    requires short { length sums.old < 2 ^ 32 }
    ensures { EachIndex sums.new (λ o. slice_index sums.new o ≡ capped (slice_index sums.old o + up_part child.now.kind network.now.arcs child.now stage o)) }
{
    if child.kind == Kind::Up {
        let transit = network.transit_between(stage, child.stage);
        add_rest_leasts(
            child.values.as_slice(),
            transit as usize,
            child.floor as usize,
            sums,
        );
    }
}

// Adds to each entry the least of the values whose place, moved by the shift, is not after it.
#[tactic(auto, using(crate::proofs::ListFacts::least_of_top))]
fn add_front_leasts(values: &[u64], shift: usize, sums: &mut [u64])
    requires sums { All (λ x. x ≤ INF) sums.old }
    ensures { EachIndex sums.new (λ i. slice_index sums.new i ≡ capped (slice_index sums.old i + least_of (take (i + 1 - shift) values.now))) }
{
    let mut least = INF;
    'times: for i in 0..sums.len() {
        least = with_next(values, shift, i, least);
        sums[i] = capped_add(sums[i], least);
    }
}

// The least of one value more, from the least of those before it.
#[tactic(auto, using(crate::proofs::ListFacts::least_early, crate::proofs::ListFacts::least_late, crate::proofs::ListFacts::least_next))]
fn with_next(values: &[u64], shift: usize, i: usize, least: u64) -> u64
    requires { least ≡ least_of (take (i - shift) values.now) }
    ensures { result ≡ least_of (take (i + 1 - shift) values.now) }
{
    if i < shift || values.len() <= i - shift {
        return least;
    }
    least.min(values[i - shift])
}

// Adds to each entry the least of the values that stand at its place, moved by the shift and the floor, or after it.
#[tactic(auto, using(crate::proofs::ListFacts::least_of_top))]
fn add_rest_leasts(values: &[u64], shift: usize, floor: usize, sums: &mut [u64])
    requires shift { shift < 2 ^ 32 }
    requires sums { All (λ x. x ≤ INF) sums.old }
    requires short { length sums.old < 2 ^ 32 }
    requires long { length values.now ≤ length sums.old + shift - floor }
    ensures { EachIndex sums.new (λ o. slice_index sums.new o ≡ capped (slice_index sums.old o + least_of (drop (o + shift - floor) values.now))) }
{
    let mut least = INF;
    'times: for o in (0..sums.len()).rev() {
        least = with_previous(values, shift, floor, o, least);
        sums[o] = capped_add(sums[o], least);
    }
}

// The least of one value more, from the least of those after it.
#[tactic(auto, using(crate::proofs::ListFacts::least_low, crate::proofs::ListFacts::least_far, crate::proofs::ListFacts::least_before))]
fn with_previous(values: &[u64], shift: usize, floor: usize, o: usize, least: u64) -> u64
    requires shift { shift < 2 ^ 32 }
    requires o { o < 2 ^ 32 }
    requires least { least ≡ least_of (drop (o + 1 + shift - floor) values.now) }
    ensures { result ≡ least_of (drop (o + shift - floor) values.now) }
{
    if o + shift < floor || values.len() <= o + shift - floor {
        return least;
    }
    least.min(values[o + shift - floor])
}
