// Where output goes, by what was written and how often it has failed.
ghost use Rattle.std.specs.Prelude.{◌≡◌, ℕ, List, Option, OnOk, OnErr};
ghost use Rattle.gsm_outside.specs.Causes.{HasCause};
ghost use Rattle.gsm_outside.specs.Written.{put_behind, PutPart};

use crate::OutFault;

/// Output that is written piece after piece.
pub trait Sink {
    /// The bytes that were written, where the sink tells.
    ghost written: { Self → Option (List ℕ) };

    /// How often a put has failed.
    ghost faults: { Self → ℕ };

    /// Writes a piece behind what was written.
    fn put(&mut self, piece: &[u8]) -> Result<(), OutFault>
        ensures ok { OnOk result (written self.new ≡ put_behind piece.now (written self.old)) }
        ensures err { OnErr result (PutPart piece.now (written self.old) (written self.new)) }
        ensures cause { HasCause (faults self.old) (faults self.new) result };
}
