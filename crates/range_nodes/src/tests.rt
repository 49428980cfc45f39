// The node of a network of two stages, worked out by hand.
ghost use Rattle.std.specs.Prelude.{IfOk};
ghost use Rattle.range_nodes.specs.Nodes.{AreSearched};

use crate::{Made, made_node};
use service_model::{List, Network, NewFault, NoMemory, Plan, Stage, SupplyArc};
use std::alloc::Global;
use std::test::Fail;
use step_ledger::Steps;
use table_pool::Pool;
use tree_order::forest_of;

struct Fills;

fn stage(alloc: Global, lead: u16, most: u16, cost: &[u64]) -> Result<Stage, NoMemory> {
    Ok(Stage {
        lead,
        supply: 0,
        least: 0,
        most,
        cost: List::copied(alloc, cost)?,
    })
}

// A supplier of lead time 3 and a customer of lead time 2 that sells at once.
fn two_stages(alloc: Global) -> Result<Network, NewFault> {
    let mut stages = List::new(alloc);
    stages.push(stage(alloc, 3, 5, &[0, 2, 3, 4])?)?;
    stages.push(stage(alloc, 2, 0, &[0, 5, 7, 9, 10, 12])?)?;
    let arc = SupplyArc {
        supplier: 0,
        customer: 1,
        transit: 0,
    };
    let arcs = List::copied(alloc, &[arc])?;
    if stages.len() >= 1 << 32 || arcs.len() >= 1 << 32 {
        return Err(NewFault::NoMemory);
    }
    Network::new(alloc, 5, stages, arcs)
}

// The node of the whole range, behind the tables of the pool.
fn whole_node(
    alloc: Global,
    network: &Network,
    pool: &mut Pool,
    steps: &mut Steps<Fills>,
) -> Result<Option<Made>, NoMemory>
    requires { AreSearched network.now pool.old }
    ensures { IfOk result (λ _. AreSearched network.now pool.new) }
{
    let _stages = network.stages().len();
    if pool.filled().len() >= 1 << 31 || steps.count() >= 1 << 62 {
        return Ok(None);
    }
    let forest = forest_of(alloc, network)?;
    let range = network.whole(alloc)?;
    Ok(Some(made_node(alloc, network, &forest, &range, pool, steps)?))
}

fn has_no_times_to_wait(plan: &Option<Plan>) -> bool {
    match plan {
        Some(plan) => {
            plan.inbound.as_slice() == [0, 0].as_slice()
                && plan.outbound.as_slice() == [0, 0].as_slice()
        }
        None => false,
    }
}

// The customer's table stands first, the supplier's is the root; nobody waits: 4 + 7.
fn is_wanted(made: &Option<Made>) -> bool {
    match made {
        Some(made) => {
            let node = &made.node;
            made.bound == 11
                && node.seen == 2
                && node.roots.as_slice() == [1].as_slice()
                && has_no_times_to_wait(&node.relaxed)
        }
        None => false,
    }
}

// The second time the pool holds both tables.
#[test]
fn a_range_is_made_a_node_twice(rt: HostRuntime) -> Result<(), Fail> {
    let alloc = rt.alloc();
    let network = two_stages(alloc)?;
    let mut pool = Pool::new(alloc);
    let mut steps = Steps::<Fills>::new();
    let first = whole_node(alloc, &network, &mut pool, &mut steps)?;
    assert!(rt; is_wanted(&first));
    let second = whole_node(alloc, &network, &mut pool, &mut steps)?;
    assert!(rt; is_wanted(&second));
    assert_eq!(rt; (pool.filled().len(), steps.count()), (2, 2));
    Ok(())
}
