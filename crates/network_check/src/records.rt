// What the network and the lists beside it have of each record.
ghost use Rattle.std.specs.Prelude.{◌≡◌, ◌≤◌, ◌*◌, IfOk, All, length, map};
ghost use Rattle.stage_file.specs.Raw.{IsRawNet};
ghost use Rattle.demand_tables.specs.Demand.{ExcessWithin};
ghost use Rattle.demand_tables.specs.DemandFaults.{supply_arc};
ghost use Rattle.network_check.specs.Checked.{stage_with, stages_from};

use service_model::{List, NoMemory, Stage, SupplyArc};
use stage_file::{ArcRow, MAX_EXCESS, MAX_UNIT, RawNet, StageRow, Text};
use std::alloc::Global;

/// The stages of the network, each with its excess demands.
pub fn stages_of(
    alloc: Global,
    raw: &RawNet,
    excess: &List<List<u64>>,
) -> Result<List<Stage>, NoMemory>
    requires read { IsRawNet raw.now }
    requires long { length excess.now ≡ length raw.now.stages }
    requires within { All (ExcessWithin raw.now.horizon) excess.now }
    ensures { IfOk result (λ stages. stages ≡ stages_from raw.now.stages excess.now) }
{
    let mut stages = List::new(alloc);
    'stages: for k in 0..raw.stages.len() {
        stages.push(stage_of(alloc, raw.stages.get(k), excess.get(k).as_slice())?)?;
    }
    Ok(stages)
}

// One stage, with the cost of each time.
fn stage_of(alloc: Global, row: &StageRow, excess: &[u64]) -> Result<Stage, NoMemory>
    requires unit { row.now.unit ≤ MAX_UNIT }
    requires excess { All (λ x. x ≤ MAX_EXCESS) excess.now }
    ensures { IfOk result (λ s. s ≡ stage_with row.now excess.now) }
{
    Ok(Stage {
        lead: row.lead,
        supply: row.supply,
        least: row.least,
        most: row.most,
        cost: cost_list(alloc, row.unit, excess)?,
    })
}

fn cost_list(alloc: Global, unit: u32, excess: &[u64]) -> Result<List<u64>, NoMemory>
    requires unit { unit ≤ MAX_UNIT }
    requires excess { All (λ x. x ≤ MAX_EXCESS) excess.now }
    ensures { IfOk result (λ cost. cost ≡ map (λ x. unit * x) excess.now) }
{
    let mut cost = List::new(alloc);
    'times: for stock in excess {
        cost.push(unit as u64 * *stock)?;
    }
    Ok(cost)
}

/// The arcs of the network.
pub fn arcs_of(alloc: Global, rows: &[ArcRow]) -> Result<List<SupplyArc>, NoMemory>
    ensures { IfOk result (λ arcs. arcs ≡ map supply_arc rows.now) }
{
    let mut arcs = List::new(alloc);
    'rows: for row in rows {
        arcs.push(SupplyArc {
            supplier: row.supplier,
            customer: row.customer,
            transit: row.transit,
        })?;
    }
    Ok(arcs)
}

/// The names of the stages.
pub fn names_of(alloc: Global, rows: &[StageRow]) -> Result<List<Text>, NoMemory>
    ensures { IfOk result (λ names. names ≡ map (λ s. s.name) rows.now) }
{
    let mut names = List::new(alloc);
    'rows: for row in rows {
        names.push(List::copied(alloc, row.name.as_slice())?)?;
    }
    Ok(names)
}

/// The unit costs of the stages.
pub fn units_of(alloc: Global, rows: &[StageRow]) -> Result<List<u32>, NoMemory>
    ensures { IfOk result (λ units. units ≡ map (λ s. s.unit) rows.now) }
{
    let mut units = List::new(alloc);
    'rows: for row in rows {
        units.push(row.unit)?;
    }
    Ok(units)
}
