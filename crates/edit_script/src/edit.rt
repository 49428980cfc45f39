// What a script asks for, and why it is refused.
ghost use Rattle.std.specs.Prelude.{◌≡◌};
ghost use Rattle.edit_script.specs.declared.edit.EditFault.TheVariants as edit_fault;
ghost use Rattle.edit_script.specs.declared.edit.ApplyFault.TheVariants as apply_fault;

use service_model::NoMemory;
use stage_file::{Row, Text};

/// A change of one record. A row stands for the record's fields, without the script's word.
#[derive(Drop)]
pub enum Edit {
    /// A column of a stage's record, from 2 on, becomes the value.
    SetStage { name: Text, column: u8, value: Text },
    AddStage { row: Row },
    DropStage { name: Text },
    /// The record of the table that the row names becomes the row.
    SetTable { row: Row },
    AddTable { row: Row },
    DropTable { name: Text },
    /// The record of the arc whose ends the row names becomes the row.
    SetArc { row: Row },
    AddArc { row: Row },
    DropArc { supplier: Text, customer: Text },
}

/// What a row of a script asks for.
#[derive(Drop)]
pub enum Step {
    /// An answer to the files as they stand.
    Solve,
    Change(Edit),
}

/// Why a row of a script says no step.
#[derive(Clone, Copy, Debug, PartialEq, Eq)]
pub enum EditFault {
    /// The first field is no word of a script, or a column's word is none.
    Word,
    /// The word takes another number of fields.
    Count,
    NoMemory,
}

impl From<NoMemory> for EditFault {
    ghost from_gives = { λ _ e. e ≡ edit_fault.NoMemory };

    fn from(_: NoMemory) -> Self {
        EditFault::NoMemory
    }
}

/// Why an edit was not made; the files are as they were.
#[derive(Clone, Copy, Debug, PartialEq, Eq)]
pub enum ApplyFault {
    /// The stage, the table or the arc that is named has no record.
    Unknown,
    NoMemory,
}

impl From<NoMemory> for ApplyFault {
    ghost from_gives = { λ _ e. e ≡ apply_fault.NoMemory };

    fn from(_: NoMemory) -> Self {
        ApplyFault::NoMemory
    }
}
