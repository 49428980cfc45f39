// The order in which suppliers come first.
ghost use Rattle.std.specs.Prelude.{◌<◌, ◌^◌, IfOk, length};
ghost use Rattle.service_model.specs.Customers.{HasEnds};
ghost use Rattle.service_model.specs.Orders.{IsFront, IsTopological};

use crate::links::Links;
use crate::waits::{first_ready, release, waits_of};
use crate::{List, Network, NoMemory, SupplyArc};
use std::alloc::Global;

/// Takes again and again the lowest stage whose suppliers were all taken, until there is none.
pub fn front(alloc: Global, links: &Links) -> Result<List<u32>, NoMemory>
    ensures { IfOk result (IsFront links.now.stages links.now.arcs.now) }
{
    let mut waits = waits_of(alloc, links.stages, links.arcs)?;
    let mut ready = first_ready(alloc, &waits)?;
    let mut order = List::new(alloc);
    'turns: while let Some(stage) = ready.take_lowest() {
        order.push(stage)?;
        release(links.customers_of(stage), &mut waits, &mut ready)?;
    }
    Ok(order)
}

/// Takes again and again the lowest stage whose suppliers on these arcs were all taken, until there is none: all
/// stages, where no stage reaches itself.
pub fn lowest_first(alloc: Global, stages: usize, arcs: &[SupplyArc]) -> Result<List<u32>, NoMemory>
    requires few { stages < 2 ^ 32 }
    requires ends { HasEnds stages arcs.now }
    ensures { IfOk result (IsFront stages arcs.now) }
{
    let links = Links::new(alloc, stages, arcs)?;
    let order = front(alloc, &links)?;
    Ok(order)
}

/// All stages, each after its suppliers: again and again the lowest stage whose suppliers were all taken.
pub fn topological_order(alloc: Global, network: &Network) -> Result<List<u32>, NoMemory>
    ensures { IfOk result (IsTopological (length network.now.stages) network.now.arcs) }
{
    let links = Links::new(alloc, network.stages().len(), network.arcs().as_slice())?;
    let order = front(alloc, &links)?;
    Ok(order)
}
