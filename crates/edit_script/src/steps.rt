// The steps that the rows of a script say.
ghost use Rattle.std.specs.Prelude.{◌≡◌, ◌<◌, length, IsTrue, IfOk};
ghost use Rattle.edit_script.specs.Words.{takes, column_named};
ghost use Rattle.stage_file.specs.Records.{field_in};
ghost use Rattle.edit_script.specs.Steps.{behind_word, set_stage, step_with, step_in, step_of, Reads, IsWholeStep};

use crate::copies::copied_row;
use crate::fields::{behind_word, field_in, kept};
use crate::words::{Word, column_named, takes, word_named};
use crate::{Edit, EditFault, Step};
use service_model::{List, NoMemory};
use stage_file::{Row, Text};
use std::alloc::Global;

/// The step that a row says.
#[tactic(auto, unfolding(crate::specs::Steps::step_of))]
pub fn read_row(alloc: Global, row: &Row) -> Result<Step, EditFault>
    ensures value { Reads (step_of row.now) result }
    ensures whole { IfOk result IsWholeStep }
{
    let fields = kept(row.as_slice());
    let Some(word) = word_named(field_in(fields, 1)) else {
        return Err(EditFault::Word);
    };
    if !takes(word, fields.len()) {
        return Err(EditFault::Count);
    }
    step_with(alloc, word, fields)
}

// The step of a word and the fields of its row.
fn step_with(alloc: Global, word: Word, fields: &[Text]) -> Result<Step, EditFault>
    requires { IsTrue (takes word (length fields.now)) }
    ensures value { Reads (step_with word fields.now) result }
    ensures whole { IfOk result IsWholeStep }
{
    let edit = match word {
        Word::Solve => return Ok(Step::Solve),
        Word::SetStage => return set_stage(alloc, fields),
        Word::AddStage => Edit::AddStage {
            row: behind(alloc, fields)?,
        },
        Word::DropStage => Edit::DropStage {
            name: field(alloc, fields, 2)?,
        },
        Word::SetTable => Edit::SetTable {
            row: behind(alloc, fields)?,
        },
        Word::AddTable => Edit::AddTable {
            row: behind(alloc, fields)?,
        },
        Word::DropTable => Edit::DropTable {
            name: field(alloc, fields, 2)?,
        },
        Word::SetArc => Edit::SetArc {
            row: behind(alloc, fields)?,
        },
        Word::AddArc => Edit::AddArc {
            row: behind(alloc, fields)?,
        },
        Word::DropArc => Edit::DropArc {
            supplier: field(alloc, fields, 2)?,
            customer: field(alloc, fields, 3)?,
        },
    };
    Ok(Step::Change(edit))
}

// A column becomes a value, if the third field is the word of a column.
fn set_stage(alloc: Global, fields: &[Text]) -> Result<Step, EditFault>
    ensures value { Reads (set_stage (field_in fields.now 2) (column_named (field_in fields.now 3)) (field_in fields.now 4)) result }
    ensures whole { IfOk result IsWholeStep }
{
    let Some(column) = column_named(field_in(fields, 3)) else {
        return Err(EditFault::Word);
    };
    Ok(Step::Change(Edit::SetStage {
        name: field(alloc, fields, 2)?,
        column,
        value: field(alloc, fields, 4)?,
    }))
}

// The fields behind the word.
fn behind(alloc: Global, fields: &[Text]) -> Result<Row, NoMemory>
    ensures { IfOk result (λ row. row ≡ behind_word fields.now) }
{
    copied_row(alloc, behind_word(fields))
}

// The field of a column.
fn field(alloc: Global, fields: &[Text], column: usize) -> Result<Text, NoMemory>
    requires { 0 < column }
    ensures { IfOk result (λ text. text ≡ field_in fields.now column) }
{
    List::copied(alloc, field_in(fields, column))
}
