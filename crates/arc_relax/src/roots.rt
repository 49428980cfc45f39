// The tables of the forest's roots.
ghost use Rattle.std.specs.Prelude.{◌≡◌, ◌<◌, ◌≤◌, ◌++◌, ◌∷◌, [], ◌==◌, if◌then◌else◌, All, IfOk, OnOk, filter, length, map, slice_index};
ghost use Rattle.service_model.specs.Tables.{table_at};
ghost use Rattle.service_model.specs.Nodes.{bound_of};

use service_model::{INF, List, NoMemory, capped_add};
use std::alloc::Global;
use tree_tables::Filled;

// Adds the number of a stage's table, where the stage is a root.
fn push_root(roots: &mut List<u32>, parent: u32, stage: u32, number: u32) -> Result<(), NoMemory>
    ensures { OnOk result (roots.new ≡ roots.old ++ (if parent == stage then number ∷ [] else [])) }
{
    if parent == stage {
        roots.push(number)?;
    }
    Ok(())
}

/// The numbers of the roots' tables, in the order.
#[tactic(auto, using(crate::proofs::RootFacts::one_root))]
pub fn roots_of(
    alloc: Global,
    order: &[u32],
    parent: &[u32],
    numbers: &[u32],
) -> Result<List<u32>, NoMemory>
    requires parent { All (λ j. j < length parent.now) order.now }
    requires numbers { All (λ j. j < length numbers.now) order.now }
    ensures { IfOk result (λ roots. roots ≡ map (λ j. slice_index numbers.now j) (filter (λ j. slice_index parent.now j == j) order.now)) }
{
    let mut roots = List::new(alloc);
    'stages: for stage in order {
        let at = *stage as usize;
        push_root(&mut roots, parent[at], *stage, numbers[at])?;
    }
    Ok(roots)
}

// The only value of a root's table.
fn root_value(made: &[Filled], root: u32) -> u64
    requires there { root < length made.now }
    requires some { 0 < length (table_at made.now root).values }
    ensures { result ≡ slice_index (table_at made.now root).values 0 }
{
    *made[root as usize].table().values.get(0)
}

/// The sum of the roots' values, `INF` where that is less.
pub fn bound_at(made: &[Filled], roots: &[u32]) -> u64
    requires there { All (λ k. k < length made.now) roots.now }
    requires some { All (λ k. 0 < length (table_at made.now k).values) roots.now }
    requires small { All (λ k. slice_index (table_at made.now k).values 0 ≤ INF) roots.now }
    ensures { result ≡ bound_of made.now roots.now }
{
    let mut bound = 0;
    'roots: for root in roots {
        bound = capped_add(bound, root_value(made, *root));
    }
    bound
}
