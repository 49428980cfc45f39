ghost use Rattle.std.specs.Prelude.{IsTrue};
ghost use Rattle.service_model.specs.Customers.{HasEnds};

use crate::cycle::first_on_cycle;
use crate::links::Links;
use crate::order::front;
use crate::{MAX_STAGES, NoMemory, SupplyArc};
use std::alloc::Global;
use std::test::*;

fn arc(supplier: u32, customer: u32) -> SupplyArc {
    SupplyArc {
        supplier,
        customer,
        transit: 0,
    }
}

fn has_ends(stages: usize, arcs: &[SupplyArc]) -> bool
    ensures { IsTrue result → HasEnds stages arcs.now }
{
    arcs.iter().all(|a| (a.supplier as usize) < stages && (a.customer as usize) < stages)
}

fn takes(
    alloc: Global,
    stages: usize,
    arcs: &[SupplyArc],
    order: &[u32],
) -> Result<bool, NoMemory> {
    if stages > MAX_STAGES || !has_ends(stages, arcs) {
        return Ok(false);
    }
    let links = Links::new(alloc, stages, arcs)?;
    Ok(front(alloc, &links)?.as_slice() == order)
}

fn lowest_is(
    alloc: Global,
    stages: usize,
    arcs: &[SupplyArc],
    lowest: Option<u32>,
) -> Result<bool, NoMemory> {
    if stages > MAX_STAGES || !has_ends(stages, arcs) {
        return Ok(false);
    }
    Ok(first_on_cycle(alloc, stages, arcs)? == lowest)
}

#[test]
fn again_and_again_the_lowest_stage_whose_suppliers_were_taken(
    rt: HostRuntime,
) -> Result<(), Fail> {
    let diamond = [arc(0, 1), arc(0, 2), arc(1, 3), arc(2, 3)];
    assert!(rt;
        takes(rt.alloc(), 4, &diamond, &[0, 1, 2, 3])?,
        "the diamond"
    );
    let apart = [arc(3, 0), arc(4, 1)];
    assert!(rt;
        takes(rt.alloc(), 5, &apart, &[2, 3, 0, 4, 1])?,
        "two components and a stage alone"
    );
    assert!(rt; takes(rt.alloc(), 3, &[], &[0, 1, 2])?, "no arcs");
    Ok(())
}

#[test]
fn a_stage_that_a_cycle_only_leads_to_is_not_on_it(rt: HostRuntime) -> Result<(), Fail> {
    let leads_out = [arc(1, 2), arc(2, 3), arc(3, 1), arc(3, 0)];
    assert!(rt;
        lowest_is(rt.alloc(), 4, &leads_out, Some(1))?,
        "stage 0 is only led to"
    );
    assert!(rt;
        takes(rt.alloc(), 4, &leads_out, &[])?,
        "each stage waits for the cycle"
    );
    let diamond = [arc(0, 1), arc(0, 2), arc(1, 3), arc(2, 3)];
    assert!(rt; lowest_is(rt.alloc(), 4, &diamond, None)?, "the diamond");
    let apart = [arc(0, 1), arc(3, 2), arc(2, 3)];
    assert!(rt;
        lowest_is(rt.alloc(), 4, &apart, Some(2))?,
        "a component without a cycle before one with it"
    );
    assert!(rt; lowest_is(rt.alloc(), 3, &[], None)?, "no arcs");
    Ok(())
}
