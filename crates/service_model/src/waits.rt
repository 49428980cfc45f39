// How many suppliers each stage still waits for.
ghost use Rattle.std.specs.Prelude.{◌≡◌, ◌<◌, ◌≤◌, ◌==◌, ◌^◌, ℕ, All, Contains, IfOk, OnOk, [], length, slice_index, count_by, replicate};
ghost use Rattle.service_model.specs.Customers.{HasEnds};
ghost use Rattle.service_model.specs.Waits.{Released, missing};

use crate::ready::Ready;
use crate::{List, NoMemory, SupplyArc};
use std::alloc::Global;

fn zeros(alloc: Global, stages: usize) -> Result<List<usize>, NoMemory>
    ensures { IfOk result (λ waits. waits ≡ replicate stages 0) }
{
    Ok(List::from_vec(vec![in alloc; 0usize; stages]?))
}

/// For each stage how many arcs lead to it.
pub fn waits_of(alloc: Global, stages: usize, arcs: &[SupplyArc]) -> Result<List<usize>, NoMemory>
    requires { HasEnds stages arcs.now }
    ensures long { IfOk result (λ waits. length waits ≡ stages) }
    ensures counts { IfOk result (λ waits. (j : ℕ) → j < stages → slice_index waits j ≡ missing arcs.now [] j) }
{
    let mut waits = zeros(alloc, stages)?;
    for arc in arcs {
        let at = arc.customer as usize;
        let more = *waits.get(at) + 1;
        waits.set(at, more);
    }
    Ok(waits)
}

/// The stages that wait for none.
pub fn first_ready(alloc: Global, waits: &List<usize>) -> Result<Ready, NoMemory>
    requires { length waits.now < 2 ^ 32 }
    ensures ready { IfOk result (λ r. (j : ℕ) → Contains r j → (j < length waits.now) × (slice_index waits.now j ≡ 0)) }
    ensures all { IfOk result (λ r. (j : ℕ) → j < length waits.now → slice_index waits.now j ≡ 0 → Contains r j) }
{
    let mut ready = Ready::new(alloc);
    for stage in 0..waits.len() {
        ready.insert_if(stage as u32, *waits.get(stage) == 0)?;
    }
    Ok(ready)
}

/// Each of these customers waits for one supplier less, and is ready where it waits for none.
pub fn release(
    customers: &[u32],
    waits: &mut List<usize>,
    ready: &mut Ready,
) -> Result<(), NoMemory>
    requires there { All (λ c. c < length waits.old) customers.now }
    requires waits { (j : ℕ) → count_by (λ c. c == j) customers.now ≤ slice_index waits.old j }
    ensures { OnOk result (Released customers.now waits.old waits.new ready.old ready.new) }
{
    for customer in customers {
        let at = *customer as usize;
        let left = *waits.get(at) - 1;
        waits.set(at, left);
        ready.insert_if(*customer, left == 0)?;
    }
    Ok(())
}
