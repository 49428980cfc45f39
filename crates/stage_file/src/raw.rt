// The records of the three files of a network.
ghost use Rattle.std.specs.Prelude.{◌≤◌, IfOk};
ghost use Rattle.service_model.specs.declared.limits.TheConstants.{MAX_HORIZON};

use crate::{ArcRow, ReadFault, Rows, StageRow, TableRow, read_arcs, read_stages, read_tables};
use service_model::List;
use std::alloc::Global;

/// The rows of the three files of a network.
#[derive(Drop)]
pub struct Files {
    pub stages: Rows,
    pub tables: Rows,
    pub arcs: Rows,
}

/// The records of the three files, with the horizon under which they were read.
#[derive(Drop)]
pub struct RawNet {
    pub horizon: u16,
    pub stages: List<StageRow>,
    pub tables: List<TableRow>,
    pub arcs: List<ArcRow>,
}

ghost use Rattle.stage_file.specs.Raw.{AreFiles, IsRawNet, raw_fault, raw_of};
ghost use Rattle.stage_file.specs.Faults.{Reads};

/// The records of the three files, or the first failing rule: of the stage file, then the table file, then the arc file.
pub fn raw_net(alloc: Global, files: &Files, horizon: u16) -> Result<RawNet, ReadFault>
    requires short { horizon ≤ MAX_HORIZON }
    requires countable { AreFiles files.now }
    ensures value { Reads (raw_fault horizon files.now) (raw_of horizon files.now) result }
    ensures within { IfOk result IsRawNet }
{
    let stages = read_stages(alloc, &files.stages, horizon)?;
    let tables = read_tables(alloc, &files.tables)?;
    let arcs = read_arcs(alloc, &files.arcs, &stages)?;
    Ok(RawNet {
        horizon,
        stages,
        tables,
        arcs,
    })
}
