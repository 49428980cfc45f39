// Splits of the first node of a diamond: stage 0 supplies stages 1 and 2, which supply stage 3. The forest drops the arc
// from stage 2 to stage 3.
ghost use Rattle.std.specs.Prelude.{◌≡◌, ℕ, ◌+◌, ◌<◌, All, IfOk, IfSome, IsTrue, length};
ghost use Rattle.service_model.specs.Plans.{Feasible, HasTimes};
ghost use Rattle.service_model.specs.Nodes.{IsNode};
ghost use Rattle.service_model.specs.Ranges.{HasIntervals, HoldsTime, whole_of};
ghost use Rattle.service_model.specs.Tables.{table_at, IsChild, IsShaped, IsSized, Supplies};
ghost use Rattle.service_model.specs.LocalSums.{Sound};
ghost use Rattle.split_rules.specs.Halves.{last_of};

use crate::arcs::last_of;
use crate::{Leaf, Leaves, Next, halves_of, split_fault};
use node_rules::{node_fault, table_in};
use service_model::cert_rules::{SPLIT_ARC, SPLIT_LATE, SPLIT_NODE, SPLIT_PLAN};
use service_model::{
    Kind, List, Network, NewFault, NoMemory, Node, Plan, Range, Split, Stage, SupplyArc, Table,
};
use std::alloc::Global;
use std::test::Fail;

// The lead time of a stage, the greatest outbound time and the costs.
const STAGES: [(u16, u16, [u64; 3]); 4] = [
    (2, 2, [0, 3, 7]),
    (0, 2, [0, 6, 6]),
    (0, 2, [0, 1, 1]),
    (0, 0, [0, 8, 8]),
];

fn stages(alloc: Global) -> Result<List<Stage>, NoMemory> {
    let mut stages = List::new(alloc);
    for (lead, most, cost) in STAGES {
        stages.push(Stage {
            lead,
            supply: 0,
            least: 0,
            most,
            cost: List::copied(alloc, &cost)?,
        })?;
    }
    Ok(stages)
}

fn arc(supplier: u32, customer: u32) -> SupplyArc {
    SupplyArc {
        supplier,
        customer,
        transit: 0,
    }
}

fn diamond(alloc: Global) -> Result<Network, NewFault> {
    let stages = stages(alloc)?;
    let arcs = List::copied(alloc, &[arc(0, 1), arc(0, 2), arc(1, 3), arc(2, 3)])?;
    if stages.len() >= 1 << 32 || arcs.len() >= 1 << 32 {
        return Err(NoMemory.into());
    }
    Network::new(alloc, 2, stages, arcs)
}

fn table(alloc: Global, stage: u32, most: u16, children: &[u32]) -> Result<Table, NoMemory> {
    Ok(Table {
        stage,
        kind: Kind::Up,
        least: 0,
        most,
        floor: 0,
        children: List::copied(alloc, children)?,
        values: List::copied(alloc, &[0, 0, 0])?,
    })
}

// Stage 3 below stage 1, and stages 1 and 2 below stage 0, with values that are at most any sum.
fn tables(alloc: Global) -> Result<Vec<Table>, NoMemory> {
    let mut tables = Vec::new(alloc);
    tables.push(table(alloc, 3, 0, &[])?)?;
    tables.push(table(alloc, 2, 2, &[])?)?;
    tables.push(table(alloc, 1, 2, &[0])?)?;
    let mut root = table(alloc, 0, 2, &[2, 1])?;
    root.kind = Kind::Root;
    root.values = List::copied(alloc, &[0])?;
    tables.push(root)?;
    Ok(tables)
}

fn plan(alloc: Global, inbound: &[u16], outbound: &[u16]) -> Result<Plan, NoMemory> {
    Ok(Plan {
        inbound: List::copied(alloc, inbound)?,
        outbound: List::copied(alloc, outbound)?,
    })
}

fn node(alloc: Global, inbound: &[u16], outbound: &[u16]) -> Result<Node, NoMemory> {
    Ok(Node {
        seen: 4,
        roots: List::copied(alloc, &[3])?,
        relaxed: Some(plan(alloc, inbound, outbound)?),
    })
}

fn is_sized(network: &Network, table: &Table) -> bool
    ensures { IsTrue result → IsSized network.now table.now }
{
    let horizon = network.horizon();
    if table.least > table.most || table.most > horizon || table.floor > horizon {
        return false;
    }
    let width = match table.kind {
        Kind::Down => table.most as usize + 1 - table.least as usize,
        Kind::Up => horizon as usize + 1 - table.floor as usize,
        Kind::Root => 1,
    };
    (table.stage as usize) < network.stages().len() && table.values.len() == width
}

fn supplies(network: &Network, supplier: u32, customer: u32) -> bool
    ensures { IsTrue result → Supplies network.now.arcs supplier customer }
{
    let arcs = network.arcs().as_slice();
    arcs.iter()
        .any(|arc| arc.supplier == supplier && arc.customer == customer)
}

fn may_hang(network: &Network, child: &Table, stage: u32) -> bool
    ensures { IsTrue result → IsChild child.now.kind network.now.arcs child.now.stage stage }
{
    match child.kind {
        Kind::Down => supplies(network, child.stage, stage),
        Kind::Up => supplies(network, stage, child.stage),
        Kind::Root => false,
    }
}

fn are_children(
    network: &Network,
    tables: &[Table],
    number: usize,
    children: &[u32],
    stage: u32,
) -> bool
    requires { number < length tables.now }
    ensures { IsTrue result → All (λ c. (c < number) × IsChild (table_at tables.now c).kind network.now.arcs (table_at tables.now c).stage stage) children.now }
{
    'children: for child in children {
        let at = *child as usize;
        if at >= number || !may_hang(network, table_in(tables, at), stage) {
            return false;
        }
    }
    true
}

fn is_shaped(network: &Network, tables: &[Table], number: usize) -> bool
    requires { number < length tables.now }
    ensures { IsTrue result → IsShaped network.now tables.now number (table_at tables.now number) }
{
    let table = table_in(tables, number);
    let children = table.children.as_slice();
    is_sized(network, table) && are_children(network, tables, number, children, table.stage)
}

fn are_shaped(network: &Network, tables: &[Table]) -> bool
    ensures { IsTrue result → ((k : ℕ) → k < length tables.now → IsShaped network.now tables.now k (table_at tables.now k)) }
{
    'tables: for number in 0..tables.len() {
        if !is_shaped(network, tables, number) {
            return false;
        }
    }
    true
}

fn are_free(tables: &[Table]) -> bool
    ensures { IsTrue result → ((k : ℕ) → k < length tables.now → All (λ x. x ≡ 0) (table_at tables.now k).values) }
{
    'tables: for number in 0..tables.len() {
        if !is_free(table_in(tables, number)) {
            return false;
        }
    }
    true
}

fn is_free(table: &Table) -> bool
    ensures { IsTrue result → All (λ x. x ≡ 0) table.now.values }
{
    table.values.as_slice().iter().all(|value| *value == 0)
}

// Values of 0 are at most any sum.
fn are_sound(network: &Network, tables: &[Table]) -> bool
    ensures { IsTrue result → Sound network.now tables.now }
{
    are_shaped(network, tables) && are_free(tables)
}

// Whether the tables fit the whole range, and the relaxed plan has two times for each stage.
fn is_node(
    alloc: Global,
    network: &Network,
    range: &Range,
    tables: &[Table],
    node: &Node,
) -> Result<bool, NoMemory>
    requires sound { Sound network.now tables.now }
    requires range { HasIntervals network.now range.now }
    requires whole { range.now ≡ whole_of network.now }
    ensures fits { IfOk result (λ is. IsTrue is → IsNode network.now tables.now range.now node.now.roots) }
    ensures times { IfOk result (λ is. IsTrue is → IfSome node.now.relaxed (HasTimes network.now)) }
{
    let fault = node_fault(alloc, network, range, 1, 0, tables, node)?;
    match fault {
        None => Ok(true),
        Some(_) => Ok(false),
    }
}

fn has_times(network: &Network, plan: &Plan) -> bool
    ensures { IsTrue result → HasTimes network.now plan.now }
{
    let stages = network.stages().len();
    plan.inbound.len() == stages && plan.outbound.len() == stages
}

fn is_feasible(network: &Network, found: &Option<Plan>) -> bool
    ensures { IsTrue result → IfSome found.now (Feasible network.now) }
{
    match found {
        None => true,
        Some(plan) => has_times(network, plan) && network.first_break(plan).is_none(),
    }
}

fn holds(range: &Range, stage: u32, time: u16) -> bool
    ensures { IsTrue result → HoldsTime range.now stage time }
{
    let at = stage as usize;
    if at >= range.least.len() || at >= range.most.len() {
        return false;
    }
    *range.least.get(at) <= time && time <= *range.most.get(at)
}

// The node's bound, the node that is split and the arc, the relaxed plan's inbound and outbound times, and the first rule
// that fails.
type Case = (u64, [u32; 3], [u16; 4], [u16; 4], Option<u8>);

// The plan found costs 7. The rules behind the first that fails fail too, where they can.
const CASES: [Case; 7] = [
    (6, [0, 2, 3], [0, 2, 2, 0], [2, 0, 2, 0], None),
    (7, [1, 0, 1], [0, 2, 2, 0], [2, 0, 2, 0], Some(SPLIT_NODE)),
    (7, [0, 0, 1], [0, 2, 2, 0], [2, 0, 2, 0], Some(SPLIT_LATE)),
    (5, [0, 0, 1], [0, 2, 2, 0], [2, 0, 2, 0], Some(SPLIT_PLAN)),
    (0, [0, 0, 3], [0, 0, 2, 0], [2, 0, 2, 0], Some(SPLIT_PLAN)),
    (6, [0, 0, 1], [0, 2, 2, 0], [2, 0, 2, 0], Some(SPLIT_ARC)),
    (6, [0, 0, 3], [0, 2, 2, 0], [2, 0, 2, 0], Some(SPLIT_ARC)),
];

// The first rule that fails in a case, none where no plan of cost 7 was found or the tables do not fit the range.
fn told(
    alloc: Global,
    network: &Network,
    range: &Range,
    tables: &[Table],
    case: Case,
) -> Result<Option<Option<u8>>, NoMemory>
    requires sound { Sound network.now tables.now }
    requires range { HasIntervals network.now range.now }
    requires whole { range.now ≡ whole_of network.now }
{
    let (bound, [at, supplier, customer], inbound, outbound, _) = case;
    let found = Some(plan(alloc, &[0, 2, 2, 0], &[2, 0, 0, 0])?);
    let node = node(alloc, &inbound, &outbound)?;
    if !is_feasible(network, &found) || !is_node(alloc, network, range, tables, &node)? {
        return Ok(None);
    }
    let next = Next {
        leaf: Leaf { bound, node: 0 },
        node: &node,
        range,
    };
    let split = Split {
        node: at,
        supplier,
        customer,
    };
    Ok(Some(split_fault(alloc, network, next, tables, &found, split)?))
}

#[test]
fn the_first_rule_that_fails_is_told(rt: HostRuntime) -> Result<(), Fail> {
    let alloc = rt.alloc();
    let network = diamond(alloc)?;
    let range = network.whole(alloc)?;
    let tables = tables(alloc)?;
    assert!(rt; are_sound(&network, &tables));
    for case in CASES {
        let rule = case.4;
        assert_eq!(rt; told(alloc, &network, &range, &tables, case)?, Some(rule));
    }
    Ok(())
}

// Whether a range may be split so, where a plan breaks the split's arc.
fn may_split(network: &Network, range: &Range, plan: &Plan, split: Split) -> bool
    ensures times { IsTrue result → HasTimes network.now plan.now }
    ensures arc { IsTrue result → Supplies network.now.arcs split.supplier split.customer }
    ensures holds { IsTrue result → HoldsTime range.now split.supplier (last_of network.now plan.now split) }
    ensures next { IsTrue result → HoldsTime range.now split.supplier (last_of network.now plan.now split + 1) }
{
    if !has_times(network, plan) || !supplies(network, split.supplier, split.customer) {
        return false;
    }
    let last = last_of(network, plan, split);
    last < u16::MAX && holds(range, split.supplier, last) && holds(range, split.supplier, last + 1)
}

#[test]
fn a_range_is_halved_where_the_customer_stops_waiting(rt: HostRuntime) -> Result<(), Fail> {
    let alloc = rt.alloc();
    let network = diamond(alloc)?;
    let range = network.whole(alloc)?;
    let plan = plan(alloc, &[0, 2, 2, 0], &[2, 0, 2, 0])?;
    let split = Split {
        node: 0,
        supplier: 2,
        customer: 3,
    };
    assert!(rt; may_split(&network, &range, &plan, split));
    let halves = halves_of(alloc, &network, &range, &plan, split)?;
    assert!(rt; halves.left.least.as_slice() == [0, 0, 0, 0].as_slice());
    assert!(rt; halves.left.most.as_slice() == [2, 2, 0, 0].as_slice());
    assert!(rt; halves.right.least.as_slice() == [0, 0, 1, 0].as_slice());
    assert!(rt; halves.right.most.as_slice() == [2, 2, 2, 0].as_slice());
    Ok(())
}

#[test]
fn the_leaf_of_least_bound_and_lowest_number_is_next(rt: HostRuntime) -> Result<(), Fail> {
    let mut leaves = Leaves::new(rt.alloc());
    assert!(rt; leaves.next() == None);
    leaves.insert(Leaf { bound: 8, node: 0 })?;
    leaves.insert(Leaf { bound: 7, node: 2 })?;
    leaves.insert(Leaf { bound: 7, node: 1 })?;
    assert!(rt; leaves.next() == Some(Leaf { bound: 7, node: 1 }));
    leaves.remove(Leaf { bound: 7, node: 1 });
    assert!(rt; leaves.next() == Some(Leaf { bound: 7, node: 2 }));
    Ok(())
}
