// Running leasts of a child's values, added to the sums over all children.
ghost use Rattle.std.specs.Prelude.{◌≡◌, ◌+◌, ◌-◌, ◌<◌, ◌≤◌, ◌^◌, All, EachIndex, drop, length, slice_index, take};
ghost use Rattle.service_model.specs.LocalSums.{capped, least_of};
ghost use Rattle.table_rules.specs.Sums.{entry_from};

use service_model::{INF, capped_add};

// The entry of a list at a time, where entry 0 stands at the start; `INF` where there is none.
fn entry_from(entries: &[u64], start: usize, time: usize) -> u64
    ensures { result ≡ entry_from entries.now start time }
{
    if time < start || entries.len() <= time - start {
        return INF;
    }
    entries[time - start]
}

/// Adds to the sum of each time the least of the values up to it, where value 0 stands at the start.
#[tactic(auto, using(crate::proofs::LeastFacts::least_of_top))]
pub fn add_leasts_up_to(values: &[u64], start: usize, sums: &mut [u64])
    requires { All (λ x. x ≤ INF) sums.old }
    ensures { EachIndex sums.new (λ i. slice_index sums.new i ≡ capped (slice_index sums.old i + least_of (take (i + 1 - start) values.now))) }
{
    let mut least = INF;
    'times: for (time, sum) in sums.iter_mut().enumerate() {
        least = least.min(entry_from(values, start, time));
        *sum = capped_add(*sum, least);
    }
}

/// Adds to the sum of each time the least of the values from it and a shift on, where value 0 stands at the start.
#[tactic(auto, using(crate::proofs::LeastFacts::least_of_top, crate::proofs::LeastFacts::least_past))]
pub fn add_leasts_from(values: &[u64], start: usize, shift: usize, sums: &mut [u64])
    requires sums { All (λ x. x ≤ INF) sums.old }
    requires short { length sums.old < 2 ^ 32 }
    requires shift { shift < 2 ^ 32 }
    requires reach { length values.now + start ≤ length sums.old + shift }
    ensures { EachIndex sums.new (λ o. slice_index sums.new o ≡ capped (slice_index sums.old o + least_of (drop (o + shift - start) values.now))) }
{
    let mut least = INF;
    'times: for time in (0..sums.len()).rev() {
        least = least.min(entry_from(values, start, time + shift));
        sums[time] = capped_add(sums[time], least);
    }
}
