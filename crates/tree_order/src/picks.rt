// Lists of numbers, in their order: the children of each stage, and the arcs that are not kept.
ghost use Rattle.std.specs.Prelude.{◌≡◌, ◌<◌, ◌^◌, ◌↔◌, All, IfOk, OnOk, IsTrue, length, reverse};
ghost use Rattle.service_model.specs.Net.{arc_in};
ghost use Rattle.service_model.specs.Forests.{IsChildOf, IsKept, ArePicked, ArePickedFor};
ghost use Rattle.tree_order.specs.Links.{JoinsStages};
ghost use Rattle.tree_order.specs.Picks.{PutsIn, PushesIf};

use crate::links::{empty_lists, push_at};
use service_model::{List, NoMemory, SupplyArc};
use std::alloc::Global;

// Puts a stage among the children of its parent, unless it is a root.
fn put_child(lists: &mut Vec<List<u32>>, parent: u32, stage: u32) -> Result<(), NoMemory>
    requires { parent < length lists.old.items }
    ensures { OnOk result (PutsIn parent stage lists.old.items lists.new.items) }
{
    if parent != stage {
        push_at(lists, parent as usize, stage)?;
    }
    Ok(())
}

/// The children of each stage, by rising stage number.
pub fn children_of(alloc: Global, parent: &[u32]) -> Result<List<List<u32>>, NoMemory>
    requires few { length parent.now < 2 ^ 32 }
    requires low { All (λ p. p < length parent.now) parent.now }
    ensures { IfOk result (λ children. ArePickedFor (IsChildOf parent.now) (length parent.now) (length parent.now) children) }
{
    let mut lists = empty_lists(alloc, parent.len())?;
    'stages: for stage in 0..parent.len() {
        put_child(&mut lists, parent[stage], stage as u32)?;
    }
    Ok(List::from_vec(lists))
}

fn is_kept(arc: SupplyArc, parent: &[u32]) -> bool
    requires supplier { arc.supplier < length parent.now }
    requires customer { arc.customer < length parent.now }
    ensures { IsTrue result ↔ IsKept parent.now arc }
{
    parent[arc.supplier as usize] == arc.customer || parent[arc.customer as usize] == arc.supplier
}

fn push_if(numbers: &mut List<u32>, number: u32, wanted: bool) -> Result<(), NoMemory>
    ensures { OnOk result (PushesIf wanted number numbers.old numbers.new) }
{
    if wanted {
        numbers.push(number)?;
    }
    Ok(())
}

/// The numbers of the arcs that join no parent and child, rising.
pub fn dropped_of(alloc: Global, arcs: &[SupplyArc], parent: &[u32]) -> Result<List<u32>, NoMemory>
    requires few { length arcs.now < 2 ^ 32 }
    requires ends { JoinsStages (length parent.now) arcs.now }
    ensures { IfOk result (λ dropped. ArePicked (λ a. ¬ IsKept parent.now (arc_in arcs.now a)) (length arcs.now) dropped) }
{
    let mut dropped = List::new(alloc);
    'arcs: for number in 0..arcs.len() {
        let kept = is_kept(arcs[number], parent);
        push_if(&mut dropped, number as u32, !kept)?;
    }
    Ok(dropped)
}

/// The items from the last to the first.
pub fn reversed(alloc: Global, items: &[u32]) -> Result<List<u32>, NoMemory>
    ensures { IfOk result (λ back. back ≡ reverse items.now) }
{
    let mut back = List::new(alloc);
    'items: for k in (0..items.len()).rev() {
        back.push(items[k])?;
    }
    Ok(back)
}
