// Numbers from 1 for groups of stages, and the arcs between two groups.
ghost use Rattle.std.specs.Prelude.{◌≡◌, ◌≢◌, ◌+◌, ◌<◌, ◌^◌, length, slice_index, All, IfOk, OnOk};
ghost use Rattle.service_model.specs.Net.{arc_in};
ghost use Rattle.service_model.specs.Forests.{ArePicked};
ghost use Rattle.cluster_split.specs.Numbers.{Gives, AreNumbers, PushesIf};

use service_model::{List, NoMemory, SupplyArc};
use std::alloc::Global;

// Sees to it that a head has a number, and gives the last number.
fn give(given: &mut List<u32>, head: u32, last: u32) -> u32
    requires head { head < length given.old }
    requires last { last + 1 < 2 ^ 32 }
    ensures { Gives head last given.old given.new result }
{
    if *given.get(head as usize) == 0 {
        given.set(head as usize, last + 1);
        last + 1
    } else {
        last
    }
}

/// The stages' groups, numbered from 1 by their lowest stage, where each stage has the head of its group.
pub fn numbers_of(alloc: Global, heads: &[u32]) -> Result<List<u32>, NoMemory>
    requires few { length heads.now < 2 ^ 32 }
    requires low { All (λ h. h < length heads.now) heads.now }
    ensures { IfOk result (AreNumbers heads.now) }
{
    let mut given = List::from_vec(vec![in alloc; 0u32; heads.len()]?);
    let mut last = 0;
    let mut numbers = List::new(alloc);
    'stages: for x in 0..heads.len() {
        last = give(&mut given, heads[x], last);
        numbers.push(*given.get(heads[x] as usize))?;
    }
    Ok(numbers)
}

fn push_if(numbers: &mut List<u32>, number: u32, wanted: bool) -> Result<(), NoMemory>
    ensures { OnOk result (PushesIf wanted number numbers.old numbers.new) }
{
    if wanted {
        numbers.push(number)?;
    }
    Ok(())
}

/// The arcs between stages of different numbers, rising.
pub fn arcs_between(
    alloc: Global,
    arcs: &[SupplyArc],
    numbers: &[u32],
) -> Result<List<u32>, NoMemory>
    requires few { length arcs.now < 2 ^ 32 }
    requires ends { All (λ a. (a.supplier < length numbers.now) × (a.customer < length numbers.now)) arcs.now }
    ensures { IfOk result (ArePicked (λ a. slice_index numbers.now (arc_in arcs.now a).supplier ≢ slice_index numbers.now (arc_in arcs.now a).customer) (length arcs.now)) }
{
    let mut between = List::new(alloc);
    'arcs: for number in 0..arcs.len() {
        let arc = arcs[number];
        let apart = numbers[arc.supplier as usize] != numbers[arc.customer as usize];
        push_if(&mut between, number as u32, apart)?;
    }
    Ok(between)
}
