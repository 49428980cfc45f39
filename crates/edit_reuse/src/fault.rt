// Why an edit of a session is refused.
ghost use Rattle.std.specs.Prelude.{◌≡◌};
ghost use Rattle.edit_reuse.specs.Edits.{fault_by_apply, fault_by_rule};

use edit_script::ApplyFault;
use stage_file::{FileFault, ReadFault};

/// Why an edit was not made; the session is as it was.
#[derive(Clone, Copy, Debug, PartialEq, Eq)]
pub enum SessionFault {
    /// The stage, the table or the arc that is named has no record.
    Unknown,
    /// A rule fails on the files behind the edit, and it is the first.
    File(FileFault),
    NoMemory,
}

impl From<ApplyFault> for SessionFault {
    ghost from_gives = { λ fault e. e ≡ fault_by_apply fault };

    fn from(fault: ApplyFault) -> Self {
        match fault {
            ApplyFault::Unknown => SessionFault::Unknown,
            ApplyFault::NoMemory => SessionFault::NoMemory,
        }
    }
}

impl From<ReadFault> for SessionFault {
    ghost from_gives = { λ fault e. e ≡ fault_by_rule fault };

    fn from(fault: ReadFault) -> Self {
        match fault {
            ReadFault::Fault(fault) => SessionFault::File(fault),
            ReadFault::NoMemory => SessionFault::NoMemory,
        }
    }
}
