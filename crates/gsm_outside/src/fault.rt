// Why a call on the outside was refused.
ghost use Rattle.std.specs.Prelude.{◌≡◌};
ghost use Rattle.gsm_outside.specs.declared.fault.OutFault.TheVariants.{NoMemory};
ghost use Rattle.gsm_outside.specs.Causes.{next_count};

use std::alloc::{AllocError, AllocFailed};

/// Why a call on a shelf or a sink was refused.
#[derive(Clone, Copy, Debug, PartialEq, Eq)]
pub enum OutFault {
    /// The outside failed, and a count of faults shows it.
    Failed,
    /// There was no memory. No content of a shelf or a sink in memory has changed.
    NoMemory,
}

impl From<AllocError> for OutFault {
    ghost from_gives = { λ _ fault. fault ≡ NoMemory };

    fn from(_: AllocError) -> OutFault {
        OutFault::NoMemory
    }
}

impl<T: Drop> From<AllocFailed<T>> for OutFault {
    ghost from_gives = { λ _ fault. fault ≡ NoMemory };

    fn from(_: AllocFailed<T>) -> OutFault {
        OutFault::NoMemory
    }
}

/// Counts a fault, and answers it.
pub fn count_fault(count: &mut u64) -> OutFault
    ensures value { result ≡ OutFault.Failed }
    ensures counted { count.new ≡ next_count count.old }
{
    *count = count.saturating_add(1);
    OutFault::Failed
}
