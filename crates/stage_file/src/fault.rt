// Which rule of which file fails, and where.
ghost use Rattle.std.specs.Prelude.{◌≡◌};
ghost use Rattle.stage_file.specs.declared.fault.ReadFault.TheVariants.{NoMemory};

use std::alloc::{AllocError, AllocFailed};

/// A kind of file, or the words of the command.
#[derive(Clone, Copy, Debug, PartialEq, Eq)]
pub enum FileKind {
    Stages,
    Tables,
    Arcs,
    Plan,
    Words,
}

/// A rule that fails, by its number in `rules`, with the number of the record and of the column, both from 1 on; 0 where there is none.
#[derive(Clone, Copy, Debug, PartialEq, Eq)]
pub struct FileFault {
    pub file: FileKind,
    pub row: u32,
    pub rule: u8,
    pub column: u32,
}

/// Why rows were not read.
#[derive(Clone, Copy, Debug, PartialEq, Eq)]
pub enum ReadFault {
    /// A rule fails, and it is the first in the order of records, rules and columns.
    Fault(FileFault),
    NoMemory,
}

impl From<service_model::NoMemory> for ReadFault {
    ghost from_gives = { λ _ e. e ≡ NoMemory };

    fn from(_: service_model::NoMemory) -> Self {
        ReadFault::NoMemory
    }
}

impl From<AllocError> for ReadFault {
    ghost from_gives = { λ _ e. e ≡ NoMemory };

    fn from(_: AllocError) -> Self {
        ReadFault::NoMemory
    }
}

impl<T: Drop> From<AllocFailed<T>> for ReadFault {
    ghost from_gives = { λ _ e. e ≡ NoMemory };

    fn from(_: AllocFailed<T>) -> Self {
        ReadFault::NoMemory
    }
}
