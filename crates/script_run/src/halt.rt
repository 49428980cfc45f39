// Why a session was halted.
ghost use Rattle.std.specs.Prelude.{◌≡◌};
ghost use Rattle.script_run.specs.declared.halt.Halt.TheVariants as halt;

use service_model::NoMemory;

/// Why a script was not carried out to its end.
#[derive(Clone, Copy, Debug, PartialEq, Eq)]
pub enum Halt {
    /// A write of a certificate failed.
    Shelf,
    /// A put of a line failed.
    Sink,
    NoMemory,
}

impl From<NoMemory> for Halt {
    ghost from_gives = { λ _ h. h ≡ halt.NoMemory };

    fn from(_: NoMemory) -> Self {
        Halt::NoMemory
    }
}
