ghost use Rattle.std.specs.Prelude.{IsTrue, IfOk, IfSome};
ghost use Rattle.service_model.specs.Ranges.{HoldsTime, HasIntervals};

use crate::tests::{Row, arc, network, plan};
use crate::{INF, Network, NoMemory, Range, capped_add};
use std::alloc::Global;
use std::test::Fail;

fn holds(range: &Range, stage: u32, time: u16) -> bool
    ensures { IsTrue result → HoldsTime range.now stage time }
{
    let at = stage as usize;
    at < range.least.len()
        && at < range.most.len()
        && *range.least.get(at) <= time
        && time <= *range.most.get(at)
}

// The half of the whole range at a time of stage 0, if its interval holds it.
fn half(alloc: Global, network: &Network, at: u16, right: bool) -> Result<Option<Range>, NoMemory>
    ensures { IfOk result (λ half. IfSome half (HasIntervals network.now)) }
{
    let mut range = network.whole(alloc)?;
    if at == u16::MAX || !holds(&range, 0, at) || !holds(&range, 0, at + 1) {
        return Ok(None);
    }
    range.halve(0, at, right);
    Ok(Some(range))
}

// The floors of three stages, together and one by one.
fn are_floors(
    alloc: Global,
    network: &Network,
    range: &Range,
    floors: [u16; 3],
) -> Result<bool, NoMemory>
    requires { HasIntervals network.now range.now }
{
    let all = network.floors(alloc, range)?;
    if network.stages().len() != 3 {
        return Ok(false);
    }
    let each = [
        network.floor(range, 0),
        network.floor(range, 1),
        network.floor(range, 2),
    ];
    Ok(all.as_slice() == floors.as_slice() && each == floors)
}

// The intervals of three stages.
fn are_intervals(range: &Range, least: [u16; 3], most: [u16; 3]) -> bool {
    range.least.as_slice() == least.as_slice() && range.most.as_slice() == most.as_slice()
}

fn half_has(
    alloc: Global,
    network: &Network,
    cut: (u16, bool),
    intervals: ([u16; 3], [u16; 3]),
    floors: [u16; 3],
) -> Result<bool, NoMemory> {
    let (at, right) = cut;
    match half(alloc, network, at, right)? {
        None => Ok(false),
        Some(range) => Ok(
            are_intervals(&range, intervals.0, intervals.1)
                && are_floors(alloc, network, &range, floors)?,
        ),
    }
}

#[test]
fn a_later_start_of_a_supplier_raises_its_customers_floors(rt: HostRuntime) -> Result<(), Fail> {
    let rows: [Row; 3] = [
        ([0, 0, 1, 4], &[0]),
        ([0, 2, 0, 2], &[0]),
        ([0, 1, 0, 0], &[0]),
    ];
    let arcs = [arc(0, 2, 4), arc(1, 2, 0), arc(0, 1, 2)];
    let network = network(rt.alloc(), 6, &rows, &arcs)?;
    let whole = network.whole(rt.alloc())?;
    assert!(rt; are_intervals(&whole, [1, 0, 0], [4, 2, 0]));
    assert!(rt; are_floors(rt.alloc(), &network, &whole, [0, 3, 5])?);
    assert!(rt;
        half_has(
            rt.alloc(),
            &network,
            (2, false),
            ([1, 0, 0], [2, 2, 0]),
            [0, 3, 5]
        )?
    );
    assert!(rt;
        half_has(
            rt.alloc(),
            &network,
            (2, true),
            ([3, 0, 0], [4, 2, 0]),
            [0, 5, 7]
        )?
    );
    assert!(rt;
        half_has(
            rt.alloc(),
            &network,
            (3, true),
            ([4, 0, 0], [4, 2, 0]),
            [0, 6, 7]
        )?
    );
    Ok(())
}

#[test]
fn a_copy_is_equal(rt: HostRuntime) -> Result<(), Fail> {
    let plan = plan(rt.alloc(), &[0, 1], &[1, 0])?.copy(rt.alloc())?;
    assert_eq!(rt; plan.inbound.as_slice(), [0, 1].as_slice());
    assert_eq!(rt; plan.outbound.as_slice(), [1, 0].as_slice());
    let whole = network(rt.alloc(), 2, &[([0, 0, 1, 2], &[0])], &[])?.whole(rt.alloc())?;
    let copy = whole.copy(rt.alloc())?;
    assert_eq!(rt; copy.least.as_slice(), [1].as_slice());
    assert_eq!(rt; copy.most.as_slice(), [2].as_slice());
    Ok(())
}

#[test]
fn a_capped_sum_stops_at_inf(rt: HostRuntime) {
    assert_eq!(rt;
        [capped_add(2, 3), capped_add(INF, 1), capped_add(INF, INF)],
        [5, INF, INF]
    );
}
