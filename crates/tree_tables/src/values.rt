// The values of a table of each kind.
ghost use Rattle.std.specs.Prelude.{◌≡◌, ◌+◌, ◌-◌, ◌<◌, ◌≤◌, ℕ, IfOk, length, slice_index};
ghost use Rattle.service_model.specs.declared.table.Kind.TheVariants.{Down, Up, Root};
ghost use Rattle.tree_tables.specs.Fills.{AreChildren, IsWanted, IsFill, table_of};
ghost use Rattle.tree_tables.specs.Leasts.{IsLeast, IsLeastPair};
ghost use Rattle.tree_tables.specs.Sums.{AreDownSums, AreUpSums, AreLeast, local_at};

use crate::local::LocalSums;
use crate::sums::{add_down_sums, add_up_sums};
use crate::{Filled, Wanted};
use service_model::{Kind, List, Network, NoMemory};
use std::alloc::Global;

/// The values of the table that is wanted.
pub fn values_of(
    alloc: Global,
    network: &Network,
    wanted: &Wanted,
    made: &[Filled],
) -> Result<List<u64>, NoMemory>
    requires { IsWanted network.now made.now wanted.now }
    ensures { IfOk result (λ values. IsFill network.now made.now (table_of wanted.now values)) }
{
    let children = wanted.children.as_slice();
    let down = down_sums(alloc, network, made, wanted.stage, children)?;
    let up = up_sums(alloc, network, made, wanted.stage, children)?;
    let stage = network.stages().get(wanted.stage as usize);
    least_values(alloc, &LocalSums::new(stage, &down, &up), wanted)
}

// The sums over the children at each inbound time up to the horizon.
fn down_sums(
    alloc: Global,
    network: &Network,
    made: &[Filled],
    stage: u32,
    children: &[u32],
) -> Result<Vec<u64>, NoMemory>
    requires { AreChildren network.now made.now stage children.now }
    ensures long { IfOk result (λ sums. length sums.items ≡ network.now.horizon + 1) }
    ensures sums { IfOk result (λ sums. AreDownSums network.now.arcs made.now stage children.now sums.items) }
{
    let mut sums = vec![in alloc; 0u64; network.horizon() as usize + 1]?;
    add_down_sums(network, made, stage, children, &mut sums);
    Ok(sums)
}

// The sums over the children at each outbound time up to the horizon.
fn up_sums(
    alloc: Global,
    network: &Network,
    made: &[Filled],
    stage: u32,
    children: &[u32],
) -> Result<Vec<u64>, NoMemory>
    requires { AreChildren network.now made.now stage children.now }
    ensures long { IfOk result (λ sums. length sums.items ≡ network.now.horizon + 1) }
    ensures sums { IfOk result (λ sums. AreUpSums network.now.arcs made.now stage children.now sums.items) }
{
    let mut sums = vec![in alloc; 0u64; network.horizon() as usize + 1]?;
    add_up_sums(network, made, stage, children, &mut sums);
    Ok(sums)
}

// The least local sums over what the wanted kind leaves free.
fn least_values(alloc: Global, sums: &LocalSums, wanted: &Wanted) -> Result<List<u64>, NoMemory>
    requires interval { wanted.now.least ≤ wanted.now.most }
    requires most { wanted.now.most < length sums.now.up }
    requires floor { wanted.now.floor ≤ length sums.now.down }
    ensures { IfOk result (AreLeast wanted.now.kind sums.now wanted.now.least wanted.now.most wanted.now.floor) }
{
    let least = wanted.least as usize;
    let end = wanted.most as usize + 1;
    let floor = wanted.floor as usize;
    match wanted.kind {
        Kind::Down => down_values(alloc, sums, least, end, floor),
        Kind::Up => up_values(alloc, sums, least, end, floor),
        Kind::Root => root_value(alloc, sums, least, end, floor),
    }
}

// The least local sum at each outbound time of an interval.
fn down_values(
    alloc: Global,
    sums: &LocalSums,
    least: usize,
    end: usize,
    floor: usize,
) -> Result<List<u64>, NoMemory>
    requires interval { least ≤ end }
    requires end { end ≤ length sums.now.up }
    requires floor { floor ≤ length sums.now.down }
    ensures long { IfOk result (λ values. length values ≡ end - least) }
    ensures each { IfOk result (λ values. (o : ℕ) → least ≤ o → o < end
        → IsLeast (λ i. local_at sums.now i o) floor (length sums.now.down) (slice_index values (o - least))) }
{
    let to = sums.times();
    let mut values = List::new(alloc);
    'times: for outbound in least..end {
        values.push(sums.least_inbound(floor, to, outbound))?;
    }
    Ok(values)
}

// The least local sum at each inbound time from the floor on.
fn up_values(
    alloc: Global,
    sums: &LocalSums,
    least: usize,
    end: usize,
    floor: usize,
) -> Result<List<u64>, NoMemory>
    requires interval { least ≤ end }
    requires end { end ≤ length sums.now.up }
    requires floor { floor ≤ length sums.now.down }
    ensures long { IfOk result (λ values. length values ≡ length sums.now.down - floor) }
    ensures each { IfOk result (λ values. (i : ℕ) → floor ≤ i → i < length sums.now.down
        → IsLeast (λ o. local_at sums.now i o) least end (slice_index values (i - floor))) }
{
    let turned = sums.turned(alloc)?;
    let mut values = List::new(alloc);
    'times: for inbound in floor..sums.times() {
        values.push(sums.least_outbound(&turned, inbound, least, end))?;
    }
    Ok(values)
}

// The least local sum.
fn root_value(
    alloc: Global,
    sums: &LocalSums,
    least: usize,
    end: usize,
    floor: usize,
) -> Result<List<u64>, NoMemory>
    requires interval { least ≤ end }
    requires end { end ≤ length sums.now.up }
    requires floor { floor ≤ length sums.now.down }
    ensures long { IfOk result (λ values. length values ≡ 1) }
    ensures value { IfOk result (λ values. IsLeastPair (local_at sums.now) floor (length sums.now.down) least end (slice_index values 0)) }
{
    let mut values = List::new(alloc);
    values.push(sums.least_pair(floor, sums.times(), least, end))?;
    Ok(values)
}
