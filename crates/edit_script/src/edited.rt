// Edits made on files.
ghost use Rattle.std.specs.Prelude.{◌≤◌};
ghost use Rattle.edit_script.specs.Steps.{IsWhole};
ghost use Rattle.edit_script.specs.Edited.{edited, HasColumn, Gives};

use crate::names::{arc_in, between, by_name, table_in};
use crate::parts::{with_arcs, with_stages, with_tables};
use crate::rows::{appended, changed, dropped, replaced};
use crate::{ApplyFault, Edit};
use stage_file::{Files, Row, Text};
use std::alloc::Global;

/// The files behind an edit. The old ones are borrowed, so each of their rows is copied, whole and once.
pub fn apply(alloc: Global, files: &Files, edit: &Edit) -> Result<Files, ApplyFault>
    requires whole { IsWhole edit.now }
    requires column { HasColumn files.now edit.now }
    ensures value { Gives (edited files.now edit.now) result }
{
    match edit {
        Edit::SetStage {
            name,
            column,
            value,
        } => set_stage(alloc, files, name, *column, value),
        Edit::AddStage { row } => add_stage(alloc, files, row),
        Edit::DropStage { name } => drop_stage(alloc, files, name),
        Edit::SetTable { row } => set_table(alloc, files, row),
        Edit::AddTable { row } => add_table(alloc, files, row),
        Edit::DropTable { name } => drop_table(alloc, files, name),
        Edit::SetArc { row } => set_arc(alloc, files, row),
        Edit::AddArc { row } => add_arc(alloc, files, row),
        Edit::DropArc { supplier, customer } => drop_arc(alloc, files, supplier, customer),
    }
}

fn set_stage(
    alloc: Global,
    files: &Files,
    name: &Text,
    column: u8,
    value: &Text,
) -> Result<Files, ApplyFault>
    requires some { 1 ≤ column }
    requires there { HasColumn files.now (Edit.SetStage name.now column value.now) }
    ensures { Gives (edited files.now (Edit.SetStage name.now column value.now)) result }
{
    let name = by_name(name);
    let stages = changed(alloc, &name, column as usize, value, &files.stages)?;
    Ok(with_stages(alloc, files, stages)?)
}

fn add_stage(alloc: Global, files: &Files, row: &Row) -> Result<Files, ApplyFault>
    ensures { Gives (edited files.now (Edit.AddStage row.now)) result }
{
    let header = ["stage", "lead", "supply", "least", "most", "bound", "unit"];
    let stages = appended(alloc, &header, row, &files.stages)?;
    Ok(with_stages(alloc, files, stages)?)
}

fn drop_stage(alloc: Global, files: &Files, name: &Text) -> Result<Files, ApplyFault>
    ensures { Gives (edited files.now (Edit.DropStage name.now)) result }
{
    let stages = dropped(alloc, &by_name(name), &files.stages)?;
    Ok(with_stages(alloc, files, stages)?)
}

fn set_table(alloc: Global, files: &Files, row: &Row) -> Result<Files, ApplyFault>
    ensures { Gives (edited files.now (Edit.SetTable row.now)) result }
{
    let tables = replaced(alloc, &table_in(row), row, &files.tables)?;
    Ok(with_tables(alloc, files, tables)?)
}

fn add_table(alloc: Global, files: &Files, row: &Row) -> Result<Files, ApplyFault>
    ensures { Gives (edited files.now (Edit.AddTable row.now)) result }
{
    let tables = appended(alloc, &["table", "x"], row, &files.tables)?;
    Ok(with_tables(alloc, files, tables)?)
}

fn drop_table(alloc: Global, files: &Files, name: &Text) -> Result<Files, ApplyFault>
    ensures { Gives (edited files.now (Edit.DropTable name.now)) result }
{
    let tables = dropped(alloc, &by_name(name), &files.tables)?;
    Ok(with_tables(alloc, files, tables)?)
}

fn set_arc(alloc: Global, files: &Files, row: &Row) -> Result<Files, ApplyFault>
    ensures { Gives (edited files.now (Edit.SetArc row.now)) result }
{
    let arcs = replaced(alloc, &arc_in(row), row, &files.arcs)?;
    Ok(with_arcs(alloc, files, arcs)?)
}

fn add_arc(alloc: Global, files: &Files, row: &Row) -> Result<Files, ApplyFault>
    ensures { Gives (edited files.now (Edit.AddArc row.now)) result }
{
    let header = ["supplier", "customer", "quantity"];
    let arcs = appended(alloc, &header, row, &files.arcs)?;
    Ok(with_arcs(alloc, files, arcs)?)
}

fn drop_arc(
    alloc: Global,
    files: &Files,
    supplier: &Text,
    customer: &Text,
) -> Result<Files, ApplyFault>
    ensures { Gives (edited files.now (Edit.DropArc supplier.now customer.now)) result }
{
    let arcs = dropped(alloc, &between(supplier, customer), &files.arcs)?;
    Ok(with_arcs(alloc, files, arcs)?)
}
