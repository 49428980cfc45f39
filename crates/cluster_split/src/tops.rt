// Tops: places of a forest, each of which stands for what is merged with it. A place leads to a place above it, a top to itself.
ghost use Rattle.std.specs.Prelude.{◌≡◌, ◌<◌, ◌^◌, ℕ, length, slice_index, IfOk};
ghost use Rattle.cluster_split.specs.Tops.{Falls, IsTop, Reaches, IsShortcut, AreTops, SameTree, Lifts, Merges};

use service_model::{List, NoMemory};
use std::alloc::Global;

/// So many places, each its own top.
pub fn own_tops(alloc: Global, count: usize) -> Result<List<u32>, NoMemory>
    requires { count < 2 ^ 32 }
    ensures long { IfOk result (λ tops. length tops ≡ count) }
    ensures own { IfOk result (λ tops. (k : ℕ) → k < count → IsTop tops k) }
{
    let mut tops = List::new(alloc);
    'places: for k in 0..count {
        tops.push(k as u32)?;
    }
    Ok(tops)
}

/// The top to which a place leads. On the way each second place is made to lead two steps further.
pub fn top_of(tops: &mut List<u32>, place: u32) -> u32
    requires place { place < length tops.old }
    requires falls { Falls tops.old }
    ensures shortcut { IsShortcut tops.old tops.new }
    ensures reached { Reaches tops.old place result }
    ensures top { IsTop tops.new result }
{
    let mut at = place;
    'climb: while *tops.get(at as usize) != at {
        let next = *tops.get(at as usize);
        let over = *tops.get(next as usize);
        tops.set(at as usize, over);
        at = over;
    }
    at
}

// Merges a top with the place above it, and gives the top of both.
fn lift(tops: &mut List<u32>, up: &[u32], top: u32) -> u32
    requires tops { AreTops up.now tops.old }
    requires falls { Falls up.now }
    requires inside { top < length up.now }
    requires top { IsTop tops.old top }
    requires below { slice_index up.now top < top }
    ensures tops { AreTops up.now tops.new }
    ensures lifts { Lifts up.now tops.old tops.new top result }
{
    let above = up[top as usize];
    tops.set(top as usize, above);
    top_of(tops, above)
}

/// Merges all places between two places of one tree, so that both have one top: the later of two tops is merged with what is above it.
pub fn merge(tops: &mut List<u32>, up: &[u32], one: u32, other: u32)
    requires tops { AreTops up.now tops.old }
    requires falls { Falls up.now }
    requires one { one < length up.now }
    requires other { other < length up.now }
    requires tree { SameTree up.now one other }
    ensures tops { AreTops up.now tops.new }
    ensures merges { Merges up.now tops.old tops.new one other }
{
    let mut a = top_of(tops, one);
    let mut b = top_of(tops, other);
    'climb: while a != b {
        if b < a {
            a = lift(tops, up, a);
        } else {
            b = lift(tops, up, b);
        }
    }
}
