// What binds a plan: the arcs without slack, and the limits that are reached.
ghost use Rattle.std.specs.Prelude.{◌≡◌, ◌<◌, ◌++◌, ◌∷◌, [], length, map, filter, IfOk, OnOk, IfSome};
ghost use Rattle.std.specs.List.{range_with_len};
ghost use Rattle.service_model.specs.Net.{arc_in};
ghost use Rattle.service_model.specs.Plans.{Feasible};
ghost use Rattle.network_check.specs.Checked.{IsChecked};
ghost use Rattle.stock_report.specs.Explanations.{is_tight, tight_row, is_at_limit, limit_row, plan_notes};

use crate::names::{name_of, push_ends};
use crate::text::{number, row_of};
use network_check::Checked;
use service_model::{NoMemory, Plan};
use stage_file::{Row, Rows};
use std::alloc::Global;

/// Puts what binds a plan behind rows, where there is one: its tight arcs, and then the limits that it reaches.
pub fn push_notes(
    alloc: Global,
    checked: &Checked,
    plan: &Option<Plan>,
    rows: &mut Rows,
) -> Result<(), NoMemory>
    requires checked { IsChecked checked.now }
    requires feasible { IfSome plan.now (Feasible checked.now.network) }
    ensures { OnOk result (rows.new ≡ rows.old ++ plan_notes checked.now plan.now) }
{
    match plan {
        None => Ok(()),
        Some(plan) => {
            push_tight(alloc, checked, plan, rows)?;
            push_limits(alloc, checked, plan, rows)
        }
    }
}

fn push_tight(
    alloc: Global,
    checked: &Checked,
    plan: &Plan,
    rows: &mut Rows,
) -> Result<(), NoMemory>
    requires checked { IsChecked checked.now }
    requires feasible { Feasible checked.now.network plan.now }
    ensures { OnOk result (rows.new ≡ rows.old ++ map (tight_row checked.now plan.now) (filter (is_tight plan.now) checked.now.network.arcs)) }
{
    'arcs: for arc in 0..checked.network.arcs().len() {
        push_if_tight(alloc, checked, plan, arc, rows)?;
    }
    Ok(())
}

fn push_if_tight(
    alloc: Global,
    checked: &Checked,
    plan: &Plan,
    arc: usize,
    rows: &mut Rows,
) -> Result<(), NoMemory>
    requires checked { IsChecked checked.now }
    requires feasible { Feasible checked.now.network plan.now }
    requires within { arc < length checked.now.network.arcs }
    ensures { OnOk result (rows.new ≡ rows.old ++ map (tight_row checked.now plan.now) (filter (is_tight plan.now) (arc_in checked.now.network.arcs arc ∷ []))) }
{
    if is_tight(checked, plan, arc) {
        let row = tight_row(alloc, checked, plan, arc)?;
        rows.push(row)
    } else {
        Ok(())
    }
}

fn is_tight(checked: &Checked, plan: &Plan, arc: usize) -> bool
    requires feasible { Feasible checked.now.network plan.now }
    requires within { arc < length checked.now.network.arcs }
    ensures { result ≡ is_tight plan.now (arc_in checked.now.network.arcs arc) }
{
    let arc = *checked.network.arcs().get(arc);
    let quoted = *plan.outbound.get(arc.supplier as usize) as u32;
    let inbound = *plan.inbound.get(arc.customer as usize) as u32;
    quoted + arc.transit as u32 == inbound
}

fn tight_row(alloc: Global, checked: &Checked, plan: &Plan, arc: usize) -> Result<Row, NoMemory>
    requires checked { IsChecked checked.now }
    requires feasible { Feasible checked.now.network plan.now }
    requires within { arc < length checked.now.network.arcs }
    ensures { IfOk result (λ row. row ≡ tight_row checked.now plan.now (arc_in checked.now.network.arcs arc)) }
{
    let supplier = checked.network.arcs().get(arc).supplier;
    let quoted = *plan.outbound.get(supplier as usize);
    let mut row = row_of(alloc, &["tight"])?;
    push_ends(alloc, checked, arc, &mut row)?;
    row.push(number(alloc, quoted as u64)?)?;
    Ok(row)
}

fn push_limits(
    alloc: Global,
    checked: &Checked,
    plan: &Plan,
    rows: &mut Rows,
) -> Result<(), NoMemory>
    requires checked { IsChecked checked.now }
    requires feasible { Feasible checked.now.network plan.now }
    ensures { OnOk result (rows.new ≡ rows.old ++ map (limit_row checked.now plan.now) (filter (is_at_limit checked.now.network plan.now) (range_with_len 0 (length checked.now.network.stages)))) }
{
    'stages: for place in 0..checked.names.len() {
        push_if_at_limit(alloc, checked, plan, place, rows)?;
    }
    Ok(())
}

fn push_if_at_limit(
    alloc: Global,
    checked: &Checked,
    plan: &Plan,
    place: usize,
    rows: &mut Rows,
) -> Result<(), NoMemory>
    requires checked { IsChecked checked.now }
    requires feasible { Feasible checked.now.network plan.now }
    requires within { place < length checked.now.network.stages }
    ensures { OnOk result (rows.new ≡ rows.old ++ map (limit_row checked.now plan.now) (filter (is_at_limit checked.now.network plan.now) (place ∷ []))) }
{
    if is_at_limit(checked, plan, place) {
        let row = limit_row(alloc, checked, plan, place)?;
        rows.push(row)
    } else {
        Ok(())
    }
}

fn is_at_limit(checked: &Checked, plan: &Plan, place: usize) -> bool
    requires feasible { Feasible checked.now.network plan.now }
    requires within { place < length checked.now.network.stages }
    ensures { result ≡ is_at_limit checked.now.network plan.now place }
{
    *plan.outbound.get(place) == checked.network.stages().get(place).most
}

fn limit_row(alloc: Global, checked: &Checked, plan: &Plan, place: usize) -> Result<Row, NoMemory>
    requires checked { IsChecked checked.now }
    requires feasible { Feasible checked.now.network plan.now }
    requires within { place < length checked.now.network.stages }
    ensures { IfOk result (λ row. row ≡ limit_row checked.now plan.now place) }
{
    let mut row = row_of(alloc, &["limit"])?;
    row.push(name_of(alloc, checked, place)?)?;
    row.push(number(alloc, *plan.outbound.get(place) as u64)?)?;
    Ok(row)
}
