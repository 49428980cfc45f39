// Arcs with the numbers of each stage's arcs beside them.
ghost use Rattle.std.specs.Prelude.{◌≡◌, ◌++◌, ◌∷◌, ◌<◌, ◌^◌, [], length, slice_index_or, slice_set, IfOk, OnOk, replicate};
ghost use Rattle.service_model.specs.Net.{arc_in};
ghost use Rattle.tree_order.specs.Links.{JoinsStages, other_end, HasLinks};

use service_model::{List, NoMemory, SupplyArc};
use std::alloc::Global;

/// The arcs between so many stages, with the numbers of the arcs at each stage.
#[derive(Drop)]
pub struct Links<'a> {
    pub stages: usize,
    pub arcs: &'a [SupplyArc],
    pub lists: Vec<List<u32>>,
    ghost few_stages: { stages < 2 ^ 32 },
    ghost few_arcs: { length arcs.now < 2 ^ 32 },
    ghost ends: { JoinsStages stages arcs.now },
}

impl<'a> Links<'a> {
    ghost use Rattle.tree_order.specs.Walks.{AreLinks};

    /// Sorts the arcs by their ends.
    pub fn new(alloc: Global, stages: usize, arcs: &'a [SupplyArc]) -> Result<Links<'a>, NoMemory>
        requires few_stages { stages < 2 ^ 32 }
        requires few_arcs { length arcs.now < 2 ^ 32 }
        requires ends { JoinsStages stages arcs.now }
        ensures stages { IfOk result (λ links. links.stages ≡ stages) }
        ensures arcs { IfOk result (λ links. links.arcs.now ≡ arcs.now) }
        ensures links { IfOk result AreLinks }
    {
        Ok(Links {
            stages,
            arcs,
            lists: link_lists(alloc, stages, arcs)?,
        })
    }

    /// The numbers of the arcs at a stage, rising.
    pub fn at(&self, stage: u32) -> &[u32]
        requires { stage < length self.now.lists.items }
        ensures { result.now ≡ slice_index_or self.now.lists.items stage [] }
    {
        self.lists[stage as usize].as_slice()
    }

    /// The other end of an arc at a stage.
    pub fn other_end(&self, number: u32, stage: u32) -> u32
        requires { number < length self.now.arcs.now }
        ensures { result ≡ other_end (arc_in self.now.arcs.now number) stage }
    {
        let arc = self.arcs[number as usize];
        if arc.supplier == stage {
            arc.customer
        } else {
            arc.supplier
        }
    }
}

pub(crate) fn empty_lists(alloc: Global, count: usize) -> Result<Vec<List<u32>>, NoMemory>
    ensures { IfOk result (λ lists. lists.items ≡ replicate count []) }
{
    let mut lists = Vec::new(alloc);
    for _list in 0..count {
        lists.push(List::new(alloc))?;
    }
    Ok(lists)
}

pub(crate) fn push_at(lists: &mut Vec<List<u32>>, at: usize, number: u32) -> Result<(), NoMemory>
    requires { at < length lists.old.items }
    ensures { OnOk result (lists.new.items ≡ slice_set lists.old.items at (slice_index_or lists.old.items at [] ++ number ∷ [])) }
{
    lists[at].push(number)?;
    Ok(())
}

// For each stage the numbers of the arcs that touch it, rising.
fn link_lists(alloc: Global, stages: usize, arcs: &[SupplyArc]) -> Result<Vec<List<u32>>, NoMemory>
    requires few { length arcs.now < 2 ^ 32 }
    requires ends { JoinsStages stages arcs.now }
    ensures { IfOk result (λ lists. HasLinks stages arcs.now (length arcs.now) lists.items) }
{
    let mut lists = empty_lists(alloc, stages)?;
    'arcs: for number in 0..arcs.len() {
        let arc = arcs[number];
        push_at(&mut lists, arc.supplier as usize, number as u32)?;
        push_at(&mut lists, arc.customer as usize, number as u32)?;
    }
    Ok(lists)
}
