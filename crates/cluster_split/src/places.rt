// The forest by places: the order in which the walk saw the stages.
ghost use Rattle.std.specs.Prelude.{◌≡◌, ◌<◌, ◌^◌, length, reverse, All, IfOk};
ghost use Rattle.service_model.specs.Forests.{HasEachOnce};
ghost use Rattle.cluster_split.specs.Places.{ArePlaces, AreUps};
ghost use Rattle.cluster_split.specs.Layouts.{IsLayout};

use service_model::{List, NoMemory};
use std::alloc::Global;
use tree_order::Forest;

/// Where the stages of a forest stand in the order of the walk.
#[derive(Drop)]
pub struct Layout {
    /// The place of each stage.
    pub place: List<u32>,
    /// For each place that of the stage's parent.
    pub up: List<u32>,
}

impl Layout {
    /// The places of the stages of a forest.
    pub fn new(alloc: Global, forest: &Forest) -> Result<Layout, NoMemory>
        requires few { length forest.now.order < 2 ^ 32 }
        requires each_once { HasEachOnce (length forest.now.parent) (reverse forest.now.order) }
        requires parents { All (λ p. p < length forest.now.parent) forest.now.parent }
        ensures { IfOk result (IsLayout forest.now) }
    {
        let seen = seen_of(alloc, forest.order.as_slice())?;
        let place = places_of(alloc, seen.as_slice())?;
        let up = ups_of(
            alloc,
            seen.as_slice(),
            forest.parent.as_slice(),
            place.as_slice(),
        )?;
        Ok(Layout { place, up })
    }
}

// The stages as the walk saw them, from an order of children before parents.
fn seen_of(alloc: Global, order: &[u32]) -> Result<Vec<u32>, NoMemory>
    ensures { IfOk result (λ seen. seen.items ≡ reverse order.now) }
{
    let seen = order.iter().rev().copied().collect(alloc)?;
    Ok(seen)
}

// The place of each stage.
fn places_of(alloc: Global, seen: &[u32]) -> Result<List<u32>, NoMemory>
    requires few { length seen.now < 2 ^ 32 }
    requires each_once { HasEachOnce (length seen.now) seen.now }
    ensures { IfOk result (ArePlaces seen.now) }
{
    let mut place = List::from_vec(vec![in alloc; 0u32; seen.len()]?);
    'seen: for k in 0..seen.len() {
        place.set(seen[k] as usize, k as u32);
    }
    Ok(place)
}

// For each place that of the stage's parent.
fn ups_of(alloc: Global, seen: &[u32], parent: &[u32], place: &[u32]) -> Result<List<u32>, NoMemory>
    requires seen { All (λ x. x < length parent.now) seen.now }
    requires parent { All (λ x. x < length place.now) parent.now }
    ensures { IfOk result (AreUps seen.now parent.now place.now) }
{
    let mut up = List::new(alloc);
    'seen: for k in 0..seen.len() {
        up.push(place[parent[seen[k] as usize] as usize])?;
    }
    Ok(up)
}
