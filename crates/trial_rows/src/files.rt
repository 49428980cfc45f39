// The files of a trial network.
ghost use Rattle.std.specs.Prelude.{◌≡◌, ℕ, ◌+◌, ◌<◌, ◌^◌, ◌∷◌, ◌++◌, [], Bool, false, length, map, slice_index_or, All, IfOk};
ghost use Rattle.std.specs.List.{range_with_len};
ghost use Rattle.trial_rows.specs.Trials.{stage_of, is_supplier, row_of_stage, stage_row, stage_header, arc_row, arc_header, trial_files};

use crate::fields::{name, number, numbered, words};
use crate::{TrialArc, TrialStage};
use service_model::{List, NoMemory};
use stage_file::{Files, Row, Rows};
use std::alloc::Global;

/// The files of a trial network: a stage file and an arc file with their usual headers, and a table file without rows.
pub fn files_of(alloc: Global, stages: &[TrialStage], arcs: &[TrialArc]) -> Result<Files, NoMemory>
    requires few { length stages.now < 2 ^ 32 }
    requires ends { All (λ a. a.supplier < length stages.now) arcs.now }
    ensures { IfOk result (λ files. files ≡ trial_files stages.now arcs.now) }
{
    Ok(Files {
        stages: stage_rows(alloc, stages, arcs)?,
        tables: List::new(alloc),
        arcs: arc_rows(alloc, arcs)?,
    })
}

// The rows of the stage file.
fn stage_rows(alloc: Global, stages: &[TrialStage], arcs: &[TrialArc]) -> Result<Rows, NoMemory>
    requires few { length stages.now < 2 ^ 32 }
    requires ends { All (λ a. a.supplier < length stages.now) arcs.now }
    ensures { IfOk result (λ rows. rows ≡ stage_header ∷ map (stage_row stages.now arcs.now) (range_with_len 0 (length stages.now))) }
{
    let suppliers = suppliers(alloc, stages.len(), arcs)?;
    let mut rows = List::new(alloc);
    let header = ["stage", "lead", "supply", "least", "most", "bound", "unit"];
    rows.push(words(alloc, &header)?)?;
    'stages: for j in 0..stages.len() {
        rows.push(stage_row(alloc, j as u32, &stages[j], suppliers[j])?)?;
    }
    Ok(rows)
}

// Which of so many stages are suppliers, marked arc by arc, so that no stage looks through all arcs.
fn suppliers(alloc: Global, stages: usize, arcs: &[TrialArc]) -> Result<Vec<bool>, NoMemory>
    requires { All (λ a. a.supplier < stages) arcs.now }
    ensures long { IfOk result (λ marks. length marks.items ≡ stages) }
    ensures each { IfOk result (λ marks. (j : ℕ) → j < stages → slice_index_or marks.items j false ≡ is_supplier arcs.now j) }
{
    let mut marks = vec![in alloc; false; stages]?;
    'arcs: for arc in arcs {
        marks[arc.supplier as usize] = true;
    }
    Ok(marks)
}

// The row of a stage, which is a supplier or not.
fn stage_row(alloc: Global, j: u32, stage: &TrialStage, is_supplier: bool) -> Result<Row, NoMemory>
    ensures { IfOk result (λ row. row ≡ row_of_stage j stage.now is_supplier) }
{
    let mut row = List::new(alloc);
    row.push(name(alloc, j)?)?;
    row.push(number(alloc, stage.lead as u64)?)?;
    row.push(List::new(alloc))?;
    row.push(List::new(alloc))?;
    let most = if is_supplier {
        b"".as_slice()
    } else {
        b"0".as_slice()
    };
    row.push(List::copied(alloc, most)?)?;
    row.push(numbered(alloc, b"normal:", stage.factor as u64)?)?;
    row.push(number(alloc, stage.unit as u64)?)?;
    Ok(row)
}

// The rows of the arc file.
fn arc_rows(alloc: Global, arcs: &[TrialArc]) -> Result<Rows, NoMemory>
    ensures { IfOk result (λ rows. rows ≡ arc_header ∷ map arc_row arcs.now) }
{
    let mut rows = List::new(alloc);
    rows.push(words(alloc, &["supplier", "customer", "quantity"])?)?;
    'arcs: for arc in arcs {
        rows.push(arc_row(alloc, arc)?)?;
    }
    Ok(rows)
}

// The row of an arc.
fn arc_row(alloc: Global, arc: &TrialArc) -> Result<Row, NoMemory>
    ensures { IfOk result (λ row. row ≡ arc_row arc.now) }
{
    let mut row = List::new(alloc);
    row.push(name(alloc, arc.supplier)?)?;
    row.push(name(alloc, arc.customer)?)?;
    row.push(List::copied(alloc, b"1")?)?;
    Ok(row)
}
