// Whether tables fit the range of a node.
ghost use Rattle.std.specs.Prelude.{◌≡◌, ◌<◌, ◌↔◌, All, IfOk, IsTrue, length};
ghost use Rattle.service_model.specs.LocalSums.{Sound};
ghost use Rattle.service_model.specs.Nodes.{below_roots, Fits};

use crate::marks::{mark_all, no_marks};
use crate::tables::table_in;
use service_model::{List, Network, NoMemory, Range, Table};
use std::alloc::Global;

/// A range of a network with the floors of the stages in it.
#[derive(Drop)]
pub struct Floored<'a> {
    pub network: &'a Network,
    pub range: &'a Range,
    pub floors: List<u16>,
}

ghost use Rattle.node_rules.specs.Floored.{IsFloored};
ghost use Rattle.node_rules.specs.Faults.{AllFit};

fn fits(range: &Floored, table: &Table) -> bool
    requires range { IsFloored range.now }
    requires stage { table.now.stage < length range.now.network.now.stages }
    ensures { IsTrue result ↔ Fits range.now.network.now range.now.range.now table.now }
{
    let stage = table.stage as usize;
    table.least <= *range.range.least.get(stage)
        && *range.range.most.get(stage) <= table.most
        && table.floor <= *range.floors.get(stage)
}

/// Whether these tables fit the range.
pub fn all_fit(range: &Floored, tables: &[Table], numbers: &[u32]) -> bool
    requires range { IsFloored range.now }
    requires sound { Sound range.now.network.now tables.now }
    requires there { All (λ k. k < length tables.now) numbers.now }
    ensures { IsTrue result ↔ AllFit range.now.network.now range.now.range.now tables.now numbers.now }
{
    'numbers: for number in numbers {
        if !fits(range, table_in(tables, *number as usize)) {
            return false;
        }
    }
    true
}

/// Whether the tables at and below the roots fit the range. Each table is looked at once, however often it stands
/// there: its children, which come before it, are marked when it is met.
pub fn all_fit_below(
    alloc: Global,
    range: &Floored,
    tables: &[Table],
    roots: &[u32],
) -> Result<bool, NoMemory>
    requires range { IsFloored range.now }
    requires sound { Sound range.now.network.now tables.now }
    requires there { All (λ k. k < length tables.now) roots.now }
    ensures { IfOk result (λ fit. IsTrue fit ↔ AllFit range.now.network.now range.now.range.now tables.now (below_roots tables.now roots.now)) }
{
    let mut marks = no_marks(alloc, tables.len())?;
    mark_all(&mut marks, roots);
    'tables: for number in (0..tables.len()).rev() {
        if *marks.get(number) {
            let table = table_in(tables, number);
            if !fits(range, table) {
                return Ok(false);
            }
            mark_all(&mut marks, table.children.as_slice());
        }
    }
    Ok(true)
}
