// What a reader of certificates answers where it does not go on.
use std::alloc::{AllocError, AllocFailed};

/// The first rule that fails on the lines of a certificate, by its number, and the number of the line, from 1 on.
#[derive(Clone, Copy, Debug, PartialEq, Eq)]
pub struct CertFault {
    pub line: u64,
    pub rule: u8,
}

/// Why a reader does not go on.
#[derive(Clone, Copy, Debug, PartialEq, Eq)]
pub enum FeedStop {
    /// A rule on lines fails, and it is the first.
    Fault(CertFault),
    /// The taker refused the item of this line.
    Stopped(u64),
    NoMemory,
}

impl From<AllocError> for FeedStop {
    ghost use Rattle.std.specs.Prelude.{◌≡◌};
    ghost use Rattle.bound_cert.specs.declared.fault.FeedStop.TheVariants.{NoMemory};

    ghost from_gives = { λ _ stop. stop ≡ NoMemory };

    fn from(_: AllocError) -> Self {
        FeedStop::NoMemory
    }
}

impl<T: Drop> From<AllocFailed<T>> for FeedStop {
    ghost use Rattle.std.specs.Prelude.{◌≡◌};
    ghost use Rattle.bound_cert.specs.declared.fault.FeedStop.TheVariants.{NoMemory};

    ghost from_gives = { λ _ stop. stop ≡ NoMemory };

    fn from(_: AllocFailed<T>) -> Self {
        FeedStop::NoMemory
    }
}
