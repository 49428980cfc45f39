// Whether the values of a table are at most its local sums, one outbound time after another.
ghost use Rattle.std.specs.Prelude.{◌≡◌, ◌+◌, ◌-◌, ◌<◌, ◌≤◌, ◌^◌, ◌↔◌, ℕ, All, IsTrue, length, slice_index};
ghost use Rattle.service_model.specs.Net.{stage_at};
ghost use Rattle.service_model.specs.Tables.{IsSized, value_at};
ghost use Rattle.table_rules.specs.Sums.{ColumnHolds, FitsPart, IsLeastSum};

use service_model::{INF, Kind, Network, Stage, Table};

// The least sum of an entry of each list, `INF` where none is less.
fn least_sum(cost: &[u64], down: &[u64]) -> u64
    requires same { length cost.now ≡ length down.now }
    requires cost { All (λ x. x ≤ INF) cost.now }
    requires down { All (λ x. x ≤ INF) down.now }
    ensures { IsLeastSum cost.now down.now (length down.now) result }
{
    let mut least = INF;
    'times: for k in 0..down.len() {
        least = least.min(cost[k] + down[k]);
    }
    least
}

// Whether one value is at most each sum.
fn is_below(value: u64, cost: &[u64], down: &[u64], up: u64) -> bool
    requires same { length cost.now ≡ length down.now }
    requires cost { All (λ x. x ≤ INF) cost.now }
    requires down { All (λ x. x ≤ INF) down.now }
    requires up { up ≤ INF }
    requires value { value ≤ INF }
    ensures { IsTrue result ↔ ((k : ℕ) → k < length down.now → value ≤ slice_index cost.now k + slice_index down.now k + up) }
{
    value <= least_sum(cost, down) + up
}

// Whether each value is at most the sum at its place.
fn are_below(values: &[u64], cost: &[u64], down: &[u64], up: u64) -> bool
    requires many { length down.now ≤ length values.now }
    requires same { length cost.now ≡ length down.now }
    requires cost { All (λ x. x ≤ INF) cost.now }
    requires down { All (λ x. x ≤ INF) down.now }
    requires up { up ≤ INF }
    ensures { IsTrue result ↔ ((k : ℕ) → k < length down.now → slice_index values.now k ≤ slice_index cost.now k + slice_index down.now k + up) }
{
    'times: for k in 0..down.len() {
        if values[k] > cost[k] + down[k] + up {
            return false;
        }
    }
    true
}

// Whether the table's values at an outbound time and inbound times from the first on are at most the sums.
fn part_holds(
    table: &Table,
    outbound: usize,
    first: usize,
    cost: &[u64],
    down: &[u64],
    up: u64,
) -> bool
    requires values { All (λ x. x ≤ INF) table.now.values }
    requires fits { FitsPart table.now.kind table.now outbound first (length down.now) }
    requires same { length cost.now ≡ length down.now }
    requires cost { All (λ x. x ≤ INF) cost.now }
    requires down { All (λ x. x ≤ INF) down.now }
    requires up { up ≤ INF }
    ensures { IsTrue result ↔ ((k : ℕ) → k < length down.now → value_at table.now (first + k) outbound ≤ slice_index cost.now k + slice_index down.now k + up) }
{
    let values = table.values.as_slice();
    match table.kind {
        Kind::Down => is_below(values[outbound - table.least as usize], cost, down, up),
        Kind::Up => are_below(&values[first - table.floor as usize..], cost, down, up),
        Kind::Root => is_below(values[0], cost, down, up),
    }
}

// Whether the table's values at an outbound time are at most the sums at all inbound times from its floor on. Where the cost
// list has no entry the sum is `INF`, and no value is above that.
fn column_holds(stage: &Stage, table: &Table, outbound: usize, down: &[u64], up: u64) -> bool
    requires values { All (λ x. x ≤ INF) table.now.values }
    requires fits { FitsPart table.now.kind table.now outbound table.now.floor (length down.now - table.now.floor) }
    requires cost { All (λ x. x ≤ INF) stage.now.cost }
    requires down { All (λ x. x ≤ INF) down.now }
    requires up { up ≤ INF }
    requires outbound { outbound < 2 ^ 16 }
    ensures { IsTrue result ↔ ColumnHolds stage.now down.now up table.now outbound }
{
    let cost = stage.cost.as_slice();
    let lead = stage.lead as usize;
    let first = outbound.saturating_sub(lead).max(table.floor as usize);
    let end = (outbound + cost.len()).saturating_sub(lead).min(down.len());
    if end <= first {
        return true;
    }
    let allowed = &cost[first + lead - outbound..end + lead - outbound];
    part_holds(table, outbound, first, allowed, &down[first..end], up)
}

/// Whether every value of the table is at most the local sums that it covers, by the sums over its children.
pub fn columns_hold(network: &Network, table: &Table, down: &[u64], up: &[u64]) -> bool
    requires sized { IsSized network.now table.now }
    requires values { All (λ x. x ≤ INF) table.now.values }
    requires down { All (λ x. x ≤ INF) down.now }
    requires up { All (λ x. x ≤ INF) up.now }
    requires inbound_times { length down.now ≡ network.now.horizon + 1 }
    requires outbound_times { length up.now ≡ network.now.horizon + 1 }
    ensures { IsTrue result ↔ ((outbound : ℕ) → table.now.least ≤ outbound → outbound < table.now.most + 1
        → ColumnHolds (stage_at network.now table.now.stage) down.now (slice_index up.now outbound) table.now outbound) }
{
    let stage = network.stages().get(table.stage as usize);
    'times: for outbound in table.least as usize..table.most as usize + 1 {
        if !column_holds(stage, table, outbound, down, up[outbound]) {
            return false;
        }
    }
    true
}
