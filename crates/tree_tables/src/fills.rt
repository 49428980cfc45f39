// A table over those below it.
ghost use Rattle.std.specs.Prelude.{◌≡◌, ◌+◌, ◌<◌, ◌^◌, IfOk};
ghost use Rattle.tree_tables.specs.Fills.{IsWanted, IsAsWanted, IsFill};

use crate::values::values_of;
use crate::{Filled, Wanted};
use service_model::{List, Network, NoMemory, Table};
use std::alloc::Global;
use step_ledger::Steps;

/// The table that is wanted, with the least local sums as its values. It counts one step, also where memory does not suffice.
pub fn fill<L>(
    alloc: Global,
    network: &Network,
    wanted: &Wanted,
    made: &[Filled],
    steps: &mut Steps<L>,
) -> Result<Filled, NoMemory>
    requires wanted { IsWanted network.now made.now wanted.now }
    requires room { steps.old < 2 ^ 63 }
    ensures wanted { IfOk result (IsAsWanted wanted.now) }
    ensures filled { IfOk result (IsFill network.now made.now) }
    ensures counted { steps.new ≡ steps.old + 1 }
{
    steps.tick();
    let children = List::copied(alloc, wanted.children.as_slice())?;
    let values = values_of(alloc, network, wanted, made)?;
    Ok(Filled::new(Table {
        stage: wanted.stage,
        kind: wanted.kind,
        least: wanted.least,
        most: wanted.most,
        floor: wanted.floor,
        children,
        values,
    }))
}
