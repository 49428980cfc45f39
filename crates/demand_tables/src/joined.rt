// Excess demands that are made of those of the customers.
ghost use Rattle.std.specs.Prelude.{◌≡◌, ◌<◌, ◌≤◌, ◌*◌, All, IfOk, length, slice_index};
ghost use Rattle.std.specs.List.{sum_by};
ghost use Rattle.gsm_nums.specs.Root.{IsRootUp};
ghost use Rattle.demand_tables.specs.Demand.{asked, asked_square, excess_at, IsPooled, IsShortest, IsSum};
ghost use Rattle.demand_tables.specs.Lookups.{AreAnswered, IsAnswered};

use gsm_nums::root_up;
use service_model::{List, NoMemory};
use stage_file::{ArcRow, MAX_EXCESS, MAX_QUANTITY};
use std::alloc::Global;

/// At each time the sum of what the customers on these arcs ask for.
pub fn sum_list(
    alloc: Global,
    lists: &List<List<u64>>,
    arcs: &[ArcRow],
) -> Result<List<u64>, NoMemory>
    requires some { 0 < length arcs.now }
    requires answered { AreAnswered lists.now arcs.now }
    ensures { IfOk result (IsSum lists.now arcs.now) }
{
    let mut excess = List::new(alloc);
    'times: for time in 0..shortest(lists, arcs) {
        excess.push(sum_at(lists, arcs, time))?;
    }
    Ok(excess)
}

/// At each time the root of the sum of the squares of what they ask for, rounded up.
pub fn pooled_list(
    alloc: Global,
    lists: &List<List<u64>>,
    arcs: &[ArcRow],
) -> Result<List<u64>, NoMemory>
    requires some { 0 < length arcs.now }
    requires answered { AreAnswered lists.now arcs.now }
    ensures { IfOk result (IsPooled lists.now arcs.now) }
{
    let mut excess = List::new(alloc);
    'times: for time in 0..shortest(lists, arcs) {
        excess.push(pooled_at(lists, arcs, time))?;
    }
    Ok(excess)
}

// The length of the shortest excess demand among the customers.
fn shortest(lists: &List<List<u64>>, arcs: &[ArcRow]) -> usize
    requires some { 0 < length arcs.now }
    requires answered { AreAnswered lists.now arcs.now }
    ensures { IsShortest lists.now arcs.now result }
{
    let mut least = customer_len(lists, &arcs[0]);
    'arcs: for arc in arcs {
        least = least.min(customer_len(lists, arc));
    }
    least
}

fn customer_len(lists: &List<List<u64>>, arc: &ArcRow) -> usize
    requires { IsAnswered lists.now arc.now }
    ensures { result ≡ length (excess_at lists.now arc.now.customer) }
{
    lists.get(arc.customer as usize).len()
}

fn sum_at(lists: &List<List<u64>>, arcs: &[ArcRow], time: usize) -> u64
    requires answered { AreAnswered lists.now arcs.now }
    requires within { All (λ a. time < length (excess_at lists.now a.customer)) arcs.now }
    ensures { result ≡ sum_by (asked lists.now time) arcs.now }
{
    let mut sum = 0;
    'arcs: for arc in arcs {
        sum += asked(lists, arc, time);
    }
    sum
}

fn pooled_at(lists: &List<List<u64>>, arcs: &[ArcRow], time: usize) -> u64
    requires answered { AreAnswered lists.now arcs.now }
    requires within { All (λ a. time < length (excess_at lists.now a.customer)) arcs.now }
    ensures { IsRootUp (sum_by (asked_square lists.now time) arcs.now) result }
{
    let mut squares: u128 = 0;
    'arcs: for arc in arcs {
        let asked = asked(lists, arc, time) as u128;
        squares += asked * asked;
    }
    root_up(squares)
}

// What the customer on an arc asks for over a time, in the supplier's units.
fn asked(lists: &List<List<u64>>, arc: &ArcRow, time: usize) -> u64
    requires answered { IsAnswered lists.now arc.now }
    requires within { time < length (excess_at lists.now arc.now.customer) }
    ensures value { result ≡ asked lists.now time arc.now }
    ensures small { result ≤ MAX_QUANTITY * MAX_EXCESS }
{
    let excess = lists.get(arc.customer as usize);
    arc.quantity as u64 * *excess.get(time)
}
