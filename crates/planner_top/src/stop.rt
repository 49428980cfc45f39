// Why a run ends before there is something to do.
ghost use Rattle.std.specs.Prelude.{◌≡◌};
ghost use Rattle.planner_top.specs.declared.stop.Unsolved.TheVariants as unsolved;
ghost use Rattle.planner_top.specs.Stops.{unsolved_by, unsolved_as};

use command_words::{FileWord, WordFault};
use request_files::Unread;
use service_model::NoMemory;
use stage_file::{FileFault, ReadFault};

/// Why a run is refused: by a rule on its words, by the length of a file, or by a rule on the files.
#[derive(Clone, Copy, Debug, PartialEq, Eq)]
pub enum Stop {
    Words(WordFault),
    TooLong(FileWord),
    Refused(FileFault),
}

/// Why a run has nothing to do.
#[derive(Clone, Copy, Debug, PartialEq, Eq)]
pub enum Unsolved {
    Stop(Stop),
    /// A fetch of the file failed.
    Fault(FileWord),
    NoMemory,
}

impl From<NoMemory> for Unsolved {
    ghost from_gives = { λ _ e. e ≡ unsolved.NoMemory };

    fn from(_: NoMemory) -> Self {
        Unsolved::NoMemory
    }
}

/// Why there is nothing to do, where the rows of files were not read.
pub fn unsolved_by(fault: ReadFault) -> Unsolved
    ensures { result ≡ unsolved_by fault }
{
    match fault {
        ReadFault::Fault(fault) => Unsolved::Stop(Stop::Refused(fault)),
        ReadFault::NoMemory => Unsolved::NoMemory,
    }
}

/// Why there is nothing to do, where the files of a request were not read.
pub fn unsolved_as(unread: Unread) -> Unsolved
    ensures { result ≡ unsolved_as unread }
{
    match unread {
        Unread::TooLong(file) => Unsolved::Stop(Stop::TooLong(file)),
        Unread::Fault(file) => Unsolved::Fault(file),
        Unread::NoMemory => Unsolved::NoMemory,
    }
}
