// The walk over the tables at and below the roots of a node, each before its children.
ghost use Rattle.std.specs.Prelude.{◌≡◌, ◌<◌, ◌++◌, ◌∷◌, [], All, IfOk, IfNone, IfSome, OnOk, length, reverse};
ghost use Rattle.service_model.specs.LocalSums.{Sound};
ghost use Rattle.node_rules.specs.Walks.{IsWalk};

use crate::marks::{mark, no_marks};
use crate::tables::table_in;
use service_model::{List, Network, NoMemory, Table};
use std::alloc::Global;

/// The tables at and below the roots, where no two are of one stage; none as soon as a stage is met twice, so that
/// there are at most as many turns as stages.
pub fn walk(
    alloc: Global,
    network: &Network,
    tables: &[Table],
    roots: &[u32],
) -> Result<Option<List<u32>>, NoMemory>
    requires sound { Sound network.now tables.now }
    requires there { All (λ k. k < length tables.now) roots.now }
    ensures { IfOk result (IsWalk tables.now roots.now) }
{
    let mut seen = no_marks(alloc, network.stages().len())?;
    let mut met = List::new(alloc);
    let mut stack = Vec::new(alloc);
    push_all(&mut stack, roots)?;
    'tables: while let Some(number) = take_top(&mut stack) {
        let table = table_in(tables, number as usize);
        if mark(&mut seen, table.stage) {
            return Ok(None);
        }
        met.push(number)?;
        push_all(&mut stack, table.children.as_slice())?;
    }
    Ok(Some(met))
}

// Puts the numbers on the stack, the first on top.
fn push_all(stack: &mut Vec<u32>, numbers: &[u32]) -> Result<(), NoMemory>
    ensures { OnOk result (stack.new.items ≡ stack.old.items ++ reverse numbers.now) }
{
    'numbers: for k in (0..numbers.len()).rev() {
        stack.push(numbers[k])?;
    }
    Ok(())
}

fn take_top(stack: &mut Vec<u32>) -> Option<u32>
    ensures some { IfSome result (λ k. stack.old.items ≡ stack.new.items ++ k ∷ []) }
    ensures none { IfNone result (stack.old.items ≡ []) }
{
    stack.pop()
}
