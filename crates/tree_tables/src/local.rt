// The local sums of a stage: its cost at two times, and what its children cost at least at these.
ghost use Rattle.std.specs.Prelude.{◌≡◌, ◌+◌, ◌-◌, ◌<◌, ◌≤◌, ◌^◌, ℕ, All, IfOk, length, reverse, slice_index};
ghost use Rattle.service_model.specs.Plans.{charge};
ghost use Rattle.tree_tables.specs.Leasts.{IsLeast, IsLeastPair};

use service_model::{INF, NoMemory, Stage, capped_add};
use std::alloc::Global;
use std::marker::Model;

/// A stage, with the sums over its children at each inbound and at each outbound time.
#[derive(Drop)]
pub struct LocalSums<'a> {
    stage: &'a Stage,
    down: &'a [u64],
    up: &'a [u64],
}

impl<'a> Model for LocalSums<'a> {
    ghost use Rattle.tree_tables.specs.Sums.{Parts, AreParts};

    ghost Value = { Parts };

    ghost view = { λ s. record { lead = s.stage.now.lead; cost = s.stage.now.cost; down = s.down.now; up = s.up.now } };

    ghost invariant = { λ s. AreParts (record { lead = s.stage.now.lead; cost = s.stage.now.cost; down = s.down.now; up = s.up.now }) };
}

impl<'a> LocalSums<'a> {
    ghost use Rattle.tree_tables.specs.Sums.{Parts, AreParts, local_at};

    /// The local sums of a stage.
    pub fn new(stage: &'a Stage, down: &'a [u64], up: &'a [u64]) -> LocalSums<'a>
        requires { AreParts (record { lead = stage.now.lead; cost = stage.now.cost; down = down.now; up = up.now }) }
        ensures lead { result.lead ≡ stage.now.lead }
        ensures cost { result.cost ≡ stage.now.cost }
        ensures down { result.down ≡ down.now }
        ensures up { result.up ≡ up.now }
    {
        LocalSums { stage, down, up }
    }

    /// How many inbound and how many outbound times there are.
    pub fn times(&self) -> usize
        ensures down { result ≡ length self.now.down }
        ensures up { result ≡ length self.now.up }
        ensures short { result < 2 ^ 16 }
    {
        self.down.len()
    }

    /// The local sum at two times.
    pub fn at(&self, inbound: usize, outbound: usize) -> u64
        requires inbound { inbound < length self.now.down }
        requires outbound { outbound < length self.now.up }
        ensures { result ≡ local_at self.now inbound outbound }
    {
        // There are so few times that the sum fits.
        let _times = self.times();
        self.least_inbound(inbound, inbound + 1, outbound)
    }

    /// The sums at each outbound time, from the last to the first.
    pub fn turned(&self, alloc: Global) -> Result<Vec<u64>, NoMemory>
        ensures { IfOk result (λ turned. turned.items ≡ reverse self.now.up) }
    {
        let mut turned = Vec::from_slice(alloc, self.up)?;
        turned.reverse();
        Ok(turned)
    }

    /// The least local sum at an outbound time, over the inbound times of an interval.
    pub fn least_inbound(&self, from: usize, to: usize, outbound: usize) -> u64
        requires interval { from ≤ to }
        requires to { to ≤ length self.now.down }
        requires outbound { outbound < length self.now.up }
        ensures { IsLeast (λ i. local_at self.now i outbound) from to result }
    {
        let cost = self.stage.cost.as_slice();
        let lead = self.stage.lead as usize;
        let least = least_sum(self.down, cost, lead, outbound, from, to);
        capped_add(least, self.up[outbound])
    }

    /// The least local sum at an inbound time, over the outbound times of an interval. A later outbound time has an earlier
    /// cost, so the sums come turned, and both lists are gone through forwards.
    pub fn least_outbound(&self, turned: &[u64], inbound: usize, from: usize, to: usize) -> u64
        requires turned { turned.now ≡ reverse self.now.up }
        requires inbound { inbound < length self.now.down }
        requires interval { from ≤ to }
        requires to { to ≤ length self.now.up }
        ensures { IsLeast (λ o. local_at self.now inbound o) from to result }
    {
        let cost = self.stage.cost.as_slice();
        let ready = inbound + self.stage.lead as usize;
        let end = self.up.len();
        let least = least_sum(turned, cost, ready, end - 1, end - to, end - from);
        capped_add(least, self.down[inbound])
    }

    /// The least local sum over the times of two intervals.
    pub fn least_pair(&self, from: usize, to: usize, least: usize, end: usize) -> u64
        requires interval { from ≤ to }
        requires to { to ≤ length self.now.down }
        requires times { least ≤ end }
        requires end { end ≤ length self.now.up }
        ensures { IsLeastPair (local_at self.now) from to least end result }
    {
        let mut lowest = INF;
        'times: for outbound in least..end {
            lowest = lowest.min(self.least_inbound(from, to, outbound));
        }
        lowest
    }
}

// The least sum of an entry and a cost, over the entries of an interval: entry k goes with the cost at the time
// k + early - late, which may be none.
fn least_sum(sums: &[u64], cost: &[u64], early: usize, late: usize, from: usize, to: usize) -> u64
    requires sums { All (λ x. x ≤ INF) sums.now }
    requires cost { All (λ x. x ≤ INF) cost.now }
    requires early { early < 2 ^ 32 }
    requires late { late < 2 ^ 32 }
    requires interval { from ≤ to }
    requires to { to ≤ length sums.now }
    ensures { IsLeast (λ k. charge early cost.now k late + slice_index sums.now k) from to result }
{
    let first = late.saturating_sub(early).clamp(from, to);
    let end = (late + cost.len()).saturating_sub(early).clamp(first, to);
    least_between(sums, cost, early, late, first, end)
}

// The same over times that all have an entry in the cost list.
fn least_between(
    sums: &[u64],
    cost: &[u64],
    early: usize,
    late: usize,
    from: usize,
    to: usize,
) -> u64
    requires sums { All (λ x. x ≤ INF) sums.now }
    requires cost { All (λ x. x ≤ INF) cost.now }
    requires early { early < 2 ^ 32 }
    requires interval { from ≤ to }
    requires to { to ≤ length sums.now }
    requires entries { (k : ℕ) → from ≤ k → k < to → (late ≤ k + early) × (k + early < late + length cost.now) }
    ensures { IsLeast (λ k. charge early cost.now k late + slice_index sums.now k) from to result }
{
    let mut least = INF;
    'times: for k in from..to {
        least = least.min(sums[k] + cost[k + early - late]);
    }
    least
}
