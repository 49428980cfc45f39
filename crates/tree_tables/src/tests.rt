// Tables and plans of small networks, by hand.
ghost use Rattle.std.specs.Prelude.{◌≡◌, ◌≢◌, [], ◌∷◌, IfOk, IfSome, IsTrue};
ghost use Rattle.service_model.specs.Nodes.{below, AreTightBelow, IsOnce};
ghost use Rattle.service_model.specs.Tables.{IsChild, Supplies};
ghost use Rattle.tree_tables.specs.Fills.{AreChildren, IsAsWanted, IsFill};

use crate::{ChildList, Filled, Wanted, fill, trace};
use service_model::{INF, Kind, List, Network, NewFault, NoMemory, Plan, Stage, SupplyArc, Table};
use std::alloc::Global;
use std::test::Fail;
use step_ledger::Steps;

struct Fills;

// The lead time of a stage, the greatest outbound time and the costs.
type Row<'a> = (u16, u16, &'a [u64]);

fn network(
    alloc: Global,
    horizon: u16,
    rows: &[Row],
    arcs: &[SupplyArc],
) -> Result<Network, NewFault> {
    let mut stages = List::new(alloc);
    for (lead, most, cost) in rows {
        stages.push(Stage {
            lead: *lead,
            supply: 0,
            least: 0,
            most: *most,
            cost: List::copied(alloc, cost)?,
        })?;
    }
    let arcs = List::copied(alloc, arcs)?;
    if stages.len() >= 1 << 32 || arcs.len() >= 1 << 32 {
        return Err(NewFault::NoMemory);
    }
    Network::new(alloc, horizon, stages, arcs)
}

fn supplies(network: &Network, supplier: u32, customer: u32) -> bool
    ensures { IsTrue result → Supplies network.now.arcs supplier customer }
{
    let arcs = network.arcs().as_slice();
    arcs.iter()
        .any(|arc| arc.supplier == supplier && arc.customer == customer)
}

fn may_hang(network: &Network, child: &Table, stage: u32) -> bool
    ensures { IsTrue result → IsChild child.now.kind network.now.arcs child.now.stage stage }
{
    match child.kind {
        Kind::Down => supplies(network, child.stage, stage),
        Kind::Up => supplies(network, stage, child.stage),
        Kind::Root => false,
    }
}

// All of a table but its values: its least, greatest and least inbound time come first.
fn wanted(
    alloc: Global,
    stage: u32,
    kind: Kind,
    times: [u16; 3],
    children: &[u32],
) -> Result<Wanted, NoMemory>
    ensures stage { IfOk result (λ w. w.stage ≡ stage) }
    ensures children { IfOk result (λ w. w.children.items ≡ children.now) }
{
    let [least, most, floor] = times;
    Ok(Wanted {
        stage,
        kind,
        least,
        most,
        floor,
        children: ChildList::from_slice(alloc, children)?,
    })
}

// The table, where it may be filled; none where steps are counted wrongly.
fn filled(
    alloc: Global,
    network: &Network,
    wanted: &Wanted,
    made: &[Filled],
) -> Result<Option<Filled>, NoMemory>
    requires { AreChildren network.now made.now wanted.now.stage wanted.now.children.items }
    ensures wanted { IfOk result (λ table. IfSome table (IsAsWanted wanted.now)) }
    ensures filled { IfOk result (λ table. IfSome table (IsFill network.now made.now)) }
{
    let known = (wanted.stage as usize) < network.stages().len();
    if !known || wanted.least > wanted.most || wanted.most > network.horizon() {
        return Ok(None);
    }
    if wanted.floor as u32 > network.horizon() as u32 + 1 {
        return Ok(None);
    }
    let mut steps = Steps::<Fills>::new();
    let table = fill(alloc, network, wanted, made, &mut steps)?;
    Ok(if steps.count() == 1 {
        Some(table)
    } else {
        None
    })
}

// A table without children.
fn single(alloc: Global, network: &Network, leaf: &Wanted) -> Result<Option<Vec<Filled>>, NoMemory>
    requires { leaf.now.children.items ≡ [] }
    ensures tight { IfOk result (λ made. IfSome made (λ tables. AreTightBelow network.now tables.items 0)) }
    ensures once { IfOk result (λ made. IfSome made (λ tables. IsOnce tables.items (below tables.items 0))) }
{
    let mut made = Vec::new(alloc);
    let Some(table) = filled(alloc, network, leaf, &[])? else {
        return Ok(None);
    };
    made.push(table)?;
    Ok(Some(made))
}

// A table without children, and one above it.
fn pair(
    alloc: Global,
    network: &Network,
    leaf: &Wanted,
    above: &Wanted,
) -> Result<Option<Vec<Filled>>, NoMemory>
    requires leaf { leaf.now.children.items ≡ [] }
    requires above { above.now.children.items ≡ 0 ∷ [] }
    requires apart { leaf.now.stage ≢ above.now.stage }
    ensures tight { IfOk result (λ made. IfSome made (λ tables. AreTightBelow network.now tables.items 1)) }
    ensures once { IfOk result (λ made. IfSome made (λ tables. IsOnce tables.items (below tables.items 1))) }
{
    let mut made = Vec::new(alloc);
    let Some(first) = filled(alloc, network, leaf, &[])? else {
        return Ok(None);
    };
    let hangs = may_hang(network, first.table(), above.stage);
    made.push(first)?;
    if !hangs {
        return Ok(None);
    }
    let Some(second) = filled(alloc, network, above, &made)? else {
        return Ok(None);
    };
    made.push(second)?;
    Ok(Some(made))
}

// The inbound and the outbound times of the plan that the last table stands for, if it is a root whose value is below INF.
fn plan_of(
    alloc: Global,
    network: &Network,
    made: &[Filled],
    root: u32,
) -> Result<Option<Plan>, NoMemory>
    requires tight { AreTightBelow network.now made.now root }
    requires once { IsOnce made.now (below made.now root) }
{
    let table = made[root as usize].table();
    if table.kind != Kind::Root || table.values.len() == 0 || *table.values.get(0) >= INF {
        return Ok(None);
    }
    let stages = network.stages().len();
    let mut plan = Plan {
        inbound: List::from_vec(vec![in alloc; 9u16; stages]?),
        outbound: List::from_vec(vec![in alloc; 9u16; stages]?),
    };
    trace(network, made, root, &mut plan);
    Ok(Some(plan))
}

// A supplier of lead time 3 and a customer of lead time 2 that sells at once, so many periods apart.
fn two_stages(alloc: Global, transit: u16) -> Result<Network, NewFault> {
    let supplier: Row = (3, 5, &[0, 2, 3, 4]);
    let customer: Row = (2, 0, &[0, 5, 7, 9, 10, 12]);
    let arc = SupplyArc {
        supplier: 0,
        customer: 1,
        transit,
    };
    network(alloc, 5, &[supplier, customer], &[arc])
}

// What is wanted of tables and of the plan of the last one: their values, and the plan's inbound and outbound times.
type Case<'a> = (&'a [&'a [u64]], Option<(&'a [u16], &'a [u16])>);

fn have_values(made: &[Filled], values: &[&[u64]]) -> bool {
    made.len() == values.len()
        && made.iter().zip(values.iter()).all(|(table, wanted)| table.table().values.as_slice()
            == *wanted)
}

fn is_plan(plan: &Option<Plan>, times: Option<(&[u16], &[u16])>) -> bool {
    match (plan, times) {
        (Some(plan), Some((inbound, outbound))) => {
            plan.inbound.as_slice() == inbound && plan.outbound.as_slice() == outbound
        }
        (None, None) => true,
        _ => false,
    }
}

// Whether two stages have the wanted tables and plan.
fn is_case(
    alloc: Global,
    network: &Network,
    leaf: &Wanted,
    above: &Wanted,
    case: Case,
) -> Result<bool, NoMemory>
    requires leaf { leaf.now.children.items ≡ [] }
    requires above { above.now.children.items ≡ 0 ∷ [] }
    requires apart { leaf.now.stage ≢ above.now.stage }
{
    match pair(alloc, network, leaf, above)? {
        None => Ok(false),
        Some(made) => Ok(
            have_values(&made, case.0) && is_plan(&plan_of(alloc, network, &made, 1)?, case.1),
        ),
    }
}

// The customer hangs on the supplier.
fn hangs_up(alloc: Global, transit: u16, floor: u16, case: Case) -> Result<bool, NewFault> {
    let network = two_stages(alloc, transit)?;
    let leaf = wanted(alloc, 1, Kind::Up, [0, 0, floor], &[])?;
    let above = wanted(alloc, 0, Kind::Root, [0, 5, 0], &[0])?;
    Ok(is_case(alloc, &network, &leaf, &above, case)?)
}

// The supplier hangs on the customer.
fn hangs_down(alloc: Global, transit: u16, floor: u16, case: Case) -> Result<bool, NewFault> {
    let network = two_stages(alloc, transit)?;
    let leaf = wanted(alloc, 0, Kind::Down, [0, 5, 0], &[])?;
    let above = wanted(alloc, 1, Kind::Root, [0, 0, floor], &[0])?;
    Ok(is_case(alloc, &network, &leaf, &above, case)?)
}

#[test]
fn a_customer_hangs_on_its_supplier(rt: HostRuntime) -> Result<(), Fail> {
    let alloc = rt.alloc();
    let at_once: Case = (
        &[&[7, 9, 10, 12, INF, INF], &[11]],
        Some((&[0, 0], &[0, 0])),
    );
    let later: Case = (&[&[10, 12, INF, INF], &[14]], Some((&[0, 2], &[0, 0])));
    let never: Case = (&[&[], &[INF]], None);
    assert!(rt; hangs_up(alloc, 0, 0, at_once)?);
    assert!(rt; hangs_up(alloc, 2, 2, later)?);
    assert!(rt; hangs_up(alloc, 6, 6, never)?);
    Ok(())
}

#[test]
fn a_supplier_hangs_on_its_customer(rt: HostRuntime) -> Result<(), Fail> {
    let alloc = rt.alloc();
    let values: &[u64] = &[4, 3, 2, 0, 0, 0];
    let at_once: Case = (&[values, &[11]], Some((&[0, 0], &[0, 0])));
    let later: Case = (&[values, &[14]], Some((&[0, 2], &[0, 0])));
    let never: Case = (&[values, &[INF]], None);
    assert!(rt; hangs_down(alloc, 0, 0, at_once)?);
    assert!(rt; hangs_down(alloc, 2, 2, later)?);
    assert!(rt; hangs_down(alloc, 6, 6, never)?);
    Ok(())
}

// Whether a root of one stage with falling costs has this value and plan.
fn is_falling(alloc: Global, case: Case) -> Result<bool, NewFault> {
    let network = network(alloc, 2, &[(0, 0, &[9, 4, 1])], &[])?;
    let root = wanted(alloc, 0, Kind::Root, [0, 0, 0], &[])?;
    match single(alloc, &network, &root)? {
        None => Ok(false),
        Some(made) => Ok(
            have_values(&made, case.0) && is_plan(&plan_of(alloc, &network, &made, 0)?, case.1),
        ),
    }
}

#[test]
fn a_stage_waits_where_that_costs_less(rt: HostRuntime) -> Result<(), Fail> {
    assert!(rt; is_falling(rt.alloc(), (&[&[1]], Some((&[2], &[0]))))?);
    Ok(())
}
