// What the children of a table cost at least, at each of its stage's times.
ghost use Rattle.std.specs.Prelude.{◌≡◌, ◌+◌, ◌<◌, ◌≤◌, All, EachIndex, length, slice_index};
ghost use Rattle.service_model.specs.Tables.{IsSized, table_at};
ghost use Rattle.service_model.specs.LocalSums.{capped};
ghost use Rattle.table_rules.specs.Sums.{AreDownSums, AreUpSums, down_part, up_part};

use crate::leasts::{add_leasts_from, add_leasts_up_to};
use service_model::{INF, Kind, Network, Table};

// Adds what a child costs at least at each inbound time.
fn add_down(network: &Network, child: &Table, stage: u32, sums: &mut [u64])
    requires { All (λ x. x ≤ INF) sums.old }
    ensures { EachIndex sums.new (λ i. slice_index sums.new i ≡ capped (slice_index sums.old i + down_part child.now.kind network.now.arcs child.now stage i)) }
{
    if child.kind == Kind::Down {
        let transit = network.transit_between(child.stage, stage);
        let start = child.least as usize + transit as usize;
        add_leasts_up_to(child.values.as_slice(), start, sums);
    }
}

// Adds what a child costs at least at each outbound time.
fn add_up(network: &Network, child: &Table, stage: u32, sums: &mut [u64])
    requires sums { All (λ x. x ≤ INF) sums.old }
    requires child { IsSized network.now child.now }
    requires times { length sums.old ≡ network.now.horizon + 1 }
    ensures { EachIndex sums.new (λ o. slice_index sums.new o ≡ capped (slice_index sums.old o + up_part child.now.kind network.now.arcs child.now stage o)) }
{
    if child.kind == Kind::Up {
        let transit = network.transit_between(stage, child.stage);
        let start = child.floor as usize;
        add_leasts_from(child.values.as_slice(), start, transit as usize, sums);
    }
}

fn clear(sums: &mut [u64])
    ensures { All (λ x. x ≡ 0) sums.new }
{
    'sums: for sum in sums.iter_mut() {
        *sum = 0;
    }
}

/// Writes what the Down children cost at least at each inbound time.
pub fn write_down_sums(
    network: &Network,
    earlier: &[Table],
    stage: u32,
    children: &[u32],
    sums: &mut [u64],
)
    requires { All (λ c. c < length earlier.now) children.now }
    ensures { AreDownSums network.now.arcs earlier.now stage children.now sums.new }
{
    clear(sums);
    'children: for child in children {
        add_down(network, &earlier[*child as usize], stage, sums);
    }
}

/// Writes what the Up children cost at least at each outbound time.
pub fn write_up_sums(
    network: &Network,
    earlier: &[Table],
    stage: u32,
    children: &[u32],
    sums: &mut [u64],
)
    requires children { All (λ c. c < length earlier.now) children.now }
    requires sized { All (λ c. IsSized network.now (table_at earlier.now c)) children.now }
    requires times { length sums.old ≡ network.now.horizon + 1 }
    ensures { AreUpSums network.now.arcs earlier.now stage children.now sums.new }
{
    clear(sums);
    'children: for child in children {
        add_up(network, &earlier[*child as usize], stage, sums);
    }
}
