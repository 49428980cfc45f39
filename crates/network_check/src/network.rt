// From files or records to a network.
ghost use Rattle.std.specs.Prelude.{◌≡◌, ◌<◌, ◌≤◌, All, IfOk, length};
ghost use Rattle.service_model.specs.declared.limits.TheConstants.{MAX_HORIZON};
ghost use Rattle.service_model.specs.Orders.{IsTopological};
ghost use Rattle.service_model.specs.Walks.{NoCycle};
ghost use Rattle.stage_file.specs.Raw.{AreFiles, IsRawNet};
ghost use Rattle.demand_tables.specs.Demand.{ExcessWithin};
ghost use Rattle.network_check.specs.Checked.{supply_arcs, network_from};
ghost use Rattle.network_check.specs.Refusals.{cycle_fault, RecordsCase, FilesCase};

use crate::checked::Checked;
use crate::records::{arcs_of, names_of, stages_of, units_of};
use demand_tables::tables_of;
use service_model::{
    List, Network, NewFault, NoMemory, SupplyArc, first_on_cycle, topological_order,
};
use stage_file::rules::CYCLE;
use stage_file::{FileFault, FileKind, Files, RawNet, ReadFault, raw_net};
use std::alloc::Global;

/// The network of files under a horizon, or the first rule that fails: those of each file, and then those on their records together.
pub fn check(alloc: Global, files: &Files, horizon: u16) -> Result<Checked, ReadFault>
    requires horizon { horizon ≤ MAX_HORIZON }
    requires countable { AreFiles files.now }
    ensures { FilesCase horizon files.now result }
{
    let raw = raw_net(alloc, files, horizon)?;
    check_records(alloc, &raw)
}

/// The network of records, or the first rule that fails on them together: a stage that reaches itself along arcs, then the bounds and excess demands of the stages.
pub fn check_records(alloc: Global, raw: &RawNet) -> Result<Checked, ReadFault>
    requires horizon { raw.now.horizon ≤ MAX_HORIZON }
    requires read { IsRawNet raw.now }
    ensures { RecordsCase raw.now result }
{
    let arcs = arcs_of(alloc, raw.arcs.as_slice())?;
    match first_on_cycle(alloc, raw.stages.len(), arcs.as_slice())? {
        Some(stage) => Err(ReadFault::Fault(cycle_fault(raw, stage))),
        None => checked_of(alloc, raw, arcs),
    }
}

// The rule on cycles at a stage.
fn cycle_fault(raw: &RawNet, stage: u32) -> FileFault
    requires { stage < length raw.now.stages }
    ensures { result ≡ cycle_fault raw.now stage }
{
    FileFault {
        file: FileKind::Stages,
        row: raw.stages.get(stage as usize).row,
        rule: CYCLE,
        column: 1,
    }
}

// The network of records without a cycle, or the first rule on bounds and excess demands that fails.
fn checked_of(alloc: Global, raw: &RawNet, arcs: List<SupplyArc>) -> Result<Checked, ReadFault>
    requires horizon { raw.now.horizon ≤ MAX_HORIZON }
    requires read { IsRawNet raw.now }
    requires acyclic { NoCycle (length raw.now.stages) (supply_arcs raw.now) }
    requires arcs { arcs ≡ supply_arcs raw.now }
    ensures { RecordsCase raw.now result }
{
    let excess = tables_of(alloc, raw)?;
    let network = network_of(alloc, raw, &excess, arcs)?;
    Ok(Checked {
        network,
        names: names_of(alloc, raw.stages.as_slice())?,
        units: units_of(alloc, raw.stages.as_slice())?,
        excess,
    })
}

// The network alone. The limits of records and excess demands are those of a network, so no rule on networks can fail.
fn network_of(
    alloc: Global,
    raw: &RawNet,
    excess: &List<List<u64>>,
    arcs: List<SupplyArc>,
) -> Result<Network, NoMemory>
    requires horizon { raw.now.horizon ≤ MAX_HORIZON }
    requires read { IsRawNet raw.now }
    requires acyclic { NoCycle (length raw.now.stages) (supply_arcs raw.now) }
    requires arcs { arcs ≡ supply_arcs raw.now }
    requires long { length excess.now ≡ length raw.now.stages }
    requires within { All (ExcessWithin raw.now.horizon) excess.now }
    ensures { IfOk result (λ n. n ≡ network_from raw.now excess.now) }
{
    let stages = stages_of(alloc, raw, excess)?;
    match Network::new(alloc, raw.horizon, stages, arcs) {
        Ok(network) => Ok(network),
        Err(NewFault::Rule(_)) => unreachable!(),
        Err(NewFault::NoMemory) => Err(NoMemory),
    }
}

/// All stages, each after its suppliers: again and again the lowest stage whose suppliers were all taken.
pub fn topological(alloc: Global, network: &Network) -> Result<List<u32>, NoMemory>
    ensures { IfOk result (IsTopological (length network.now.stages) network.now.arcs) }
{
    topological_order(alloc, network)
}
