// Files with other rows in one of the three.
ghost use Rattle.std.specs.Prelude.{◌≡◌, IfOk};
ghost use Rattle.edit_script.specs.Edited.{with_stages, with_tables, with_arcs};

use crate::copies::copied_rows;
use service_model::NoMemory;
use stage_file::{Files, Rows};
use std::alloc::Global;

/// A copy of files with other stage rows.
pub fn with_stages(alloc: Global, files: &Files, stages: Rows) -> Result<Files, NoMemory>
    ensures { IfOk result (λ new. new ≡ with_stages files.now stages) }
{
    let tables = copied_rows(alloc, files.tables.as_slice())?;
    let arcs = copied_rows(alloc, files.arcs.as_slice())?;
    Ok(Files {
        stages,
        tables,
        arcs,
    })
}

/// A copy of files with other table rows.
pub fn with_tables(alloc: Global, files: &Files, tables: Rows) -> Result<Files, NoMemory>
    ensures { IfOk result (λ new. new ≡ with_tables files.now tables) }
{
    let stages = copied_rows(alloc, files.stages.as_slice())?;
    let arcs = copied_rows(alloc, files.arcs.as_slice())?;
    Ok(Files {
        stages,
        tables,
        arcs,
    })
}

/// A copy of files with other arc rows.
pub fn with_arcs(alloc: Global, files: &Files, arcs: Rows) -> Result<Files, NoMemory>
    ensures { IfOk result (λ new. new ≡ with_arcs files.now arcs) }
{
    let stages = copied_rows(alloc, files.stages.as_slice())?;
    let tables = copied_rows(alloc, files.tables.as_slice())?;
    Ok(Files {
        stages,
        tables,
        arcs,
    })
}
