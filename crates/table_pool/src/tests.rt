// A pool over a network of one stage.
ghost use Rattle.std.specs.Prelude.{IfOk};
ghost use Rattle.table_pool.specs.Pools.{IsPool};

use crate::Pool;
use service_model::{Kind, List, Network, NewFault, NoMemory, Stage};
use std::alloc::Global;
use std::test::Fail;
use step_ledger::Steps;
use tree_tables::{ChildList, Wanted};

struct Fills;

// A stage of lead time 0 that may quote up to 2, at costs 9, 4 and 1.
fn network(alloc: Global) -> Result<Network, NewFault> {
    let mut stages = List::new(alloc);
    stages.push(Stage {
        lead: 0,
        supply: 0,
        least: 0,
        most: 2,
        cost: List::copied(alloc, &[9, 4, 1])?,
    })?;
    if stages.len() >= 1 << 32 {
        return Err(NewFault::NoMemory);
    }
    Network::new(alloc, 2, stages, List::new(alloc))
}

// The kind of a table of the stage, its greatest outbound and its least inbound time.
type Asked = (Kind, u16, u16);

// The number of the table, where it may be filled.
fn number(
    alloc: Global,
    network: &Network,
    pool: &mut Pool,
    steps: &mut Steps<Fills>,
    asked: Asked,
) -> Result<Option<u32>, NoMemory>
    requires { IsPool network.now pool.old }
    ensures { IfOk result (λ _. IsPool network.now pool.new) }
{
    let (kind, most, floor) = asked;
    let room = pool.filled().len() < 9 && steps.count() < 9;
    if !room || network.stages().len() == 0 || most > network.horizon() {
        return Ok(None);
    }
    if floor > network.horizon() {
        return Ok(None);
    }
    let wanted = Wanted {
        stage: 0,
        kind,
        least: 0,
        most,
        floor,
        children: ChildList::new(alloc),
    };
    Ok(Some(pool.find_or_fill(network, &wanted, steps)?))
}

// The numbers of the tables that are asked for, one after the other, and how many were filled.
fn numbers(
    alloc: Global,
    network: &Network,
    asked: &[Asked],
) -> Result<(Vec<Option<u32>>, u64), NoMemory> {
    let mut pool = Pool::new(alloc);
    let mut steps = Steps::new();
    let mut found = Vec::new(alloc);
    'asked: for one in asked {
        let number = number(alloc, network, &mut pool, &mut steps, *one)?;
        found.push(number)?;
    }
    Ok((found, steps.count()))
}

#[test]
fn a_table_is_filled_once(rt: HostRuntime) -> Result<(), Fail> {
    let root: Asked = (Kind::Root, 2, 0);
    let down: Asked = (Kind::Down, 2, 0);
    let narrower: Asked = (Kind::Root, 1, 0);
    let later: Asked = (Kind::Root, 2, 1);
    let asked = [root, down, narrower, root, later, down, root];
    let (found, filled) = numbers(rt.alloc(), &network(rt.alloc())?, &asked)?;
    let wanted = [
        Some(0),
        Some(1),
        Some(2),
        Some(0),
        Some(3),
        Some(1),
        Some(0),
    ];
    assert_eq!(rt; found.as_slice(), wanted.as_slice());
    assert_eq!(rt; filled, 4);
    Ok(())
}

// The values of the stage's table for each outbound time, and how many tables there are before and after the pool is cleared.
fn values(alloc: Global) -> Result<Option<([u64; 3], usize, usize)>, NewFault> {
    let network = network(alloc)?;
    let mut pool = Pool::new(alloc);
    let mut steps = Steps::new();
    let id = number(alloc, &network, &mut pool, &mut steps, (Kind::Down, 2, 0))?;
    let full = pool.filled().len();
    let values = match id {
        Some(id) if (id as usize) < full => match pool.table(id).values.as_slice() {
            [first, second, third] => [*first, *second, *third],
            _ => return Ok(None),
        },
        _ => return Ok(None),
    };
    pool.clear();
    Ok(Some((values, full, pool.filled().len())))
}

#[test]
fn a_cleared_pool_holds_no_table(rt: HostRuntime) -> Result<(), Fail> {
    assert_eq!(rt; values(rt.alloc())?, Some(([1, 4, 9], 1, 0)));
    Ok(())
}
