// What one line gives, and why a line gives nothing.
ghost use Rattle.std.specs.Prelude.{◌≡◌};

use service_model::{Item, NoMemory};
use std::alloc::{AllocError, AllocFailed};

/// Why a line stands for no item.
#[derive(Clone, Copy, Debug, PartialEq, Eq)]
pub(crate) enum Refusal {
    /// It is no JSON value.
    NotJson,
    /// Its value is none of the five arrays, or a number is out of its range.
    Shape,
}

/// Why there is no item.
#[derive(Clone, Copy, Debug, PartialEq, Eq)]
pub(crate) enum LineStop {
    Refused(Refusal),
    NoMemory,
}

/// An item, with the version that its line names; lines other than heads name none and have version 1.
#[derive(Drop)]
pub(crate) struct Line {
    pub version: u32,
    pub item: Item,
}

/// The interval of a table, and its floor.
#[derive(Clone, Copy, Debug, PartialEq, Eq)]
pub(crate) struct Limits {
    pub least: u16,
    pub most: u16,
    pub floor: u16,
}

/// The kinds of lines.
#[derive(Clone, Copy, Debug, PartialEq, Eq)]
pub(crate) enum Tag {
    Head,
    Table,
    Node,
    Split,
    End,
}

impl From<AllocError> for LineStop {
    ghost use Rattle.bound_cert.specs.declared.line.LineStop.TheVariants.{NoMemory};

    ghost from_gives = { λ _ stop. stop ≡ NoMemory };

    fn from(_: AllocError) -> Self {
        LineStop::NoMemory
    }
}

impl<T: Drop> From<AllocFailed<T>> for LineStop {
    ghost use Rattle.bound_cert.specs.declared.line.LineStop.TheVariants.{NoMemory};

    ghost from_gives = { λ _ stop. stop ≡ NoMemory };

    fn from(_: AllocFailed<T>) -> Self {
        LineStop::NoMemory
    }
}

impl From<NoMemory> for LineStop {
    ghost use Rattle.bound_cert.specs.declared.line.LineStop.TheVariants.{NoMemory};

    ghost from_gives = { λ _ stop. stop ≡ NoMemory };

    fn from(_: NoMemory) -> Self {
        LineStop::NoMemory
    }
}
