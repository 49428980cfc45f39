// A shelf of files, by what it holds and how often it has failed.
ghost use Rattle.std.specs.Prelude.{◌≡◌, ◌<◌, ◌≤◌, ℕ, [], Option, length, IfOk, IfSome, OnOk, OnErr};
ghost use Rattle.gsm_outside.specs.Causes.{HasCause};
ghost use Rattle.gsm_outside.specs.Held.{Held, file_bytes, Fetched, put_in, add_to, AddedPart, MaybeEmptied};

use crate::OutFault;

/// Files by their names, which are read in pieces, made, and written at their ends.
pub trait Shelf {
    /// The bytes by names, where the shelf tells what it holds.
    ghost held: { Self → Option Held };

    /// How often a fetch has failed.
    ghost read_faults: { Self → ℕ };

    /// How often a create or an append has failed.
    ghost write_faults: { Self → ℕ };

    /// Reads bytes of a file from a place on into a buffer, and says how many. Fewer than fit may come, but none
    /// only at the end of the file. A missing name fails or reads as empty.
    fn fetch(&mut self, name: &str, at: u64, buf: &mut [u8]) -> Result<usize, OutFault>
        requires { 0 < length buf.old }
        ensures within { IfOk result (λ n. n ≤ length buf.new) }
        ensures bytes { IfOk result (λ n. IfSome (held self.old)
            (λ files. Fetched (file_bytes files name.now) at buf.new n)) }
        ensures held { held self.new ≡ held self.old }
        ensures cause { HasCause (read_faults self.old) (read_faults self.new) result }
        ensures writes { write_faults self.new ≡ write_faults self.old };

    /// Makes a file without bytes, in the place of one that was there.
    fn create(&mut self, name: &str) -> Result<(), OutFault>
        ensures ok { OnOk result (held self.new ≡ put_in name.now [] (held self.old)) }
        ensures err { OnErr result (MaybeEmptied name.now (held self.old) (held self.new)) }
        ensures cause { HasCause (write_faults self.old) (write_faults self.new) result }
        ensures reads { read_faults self.new ≡ read_faults self.old };

    /// Writes a piece behind the bytes of a file. A missing name fails or is made.
    fn append(&mut self, name: &str, piece: &[u8]) -> Result<(), OutFault>
        ensures ok { OnOk result (held self.new ≡ add_to name.now piece.now (held self.old)) }
        ensures err { OnErr result (AddedPart name.now piece.now (held self.old) (held self.new)) }
        ensures cause { HasCause (write_faults self.old) (write_faults self.new) result }
        ensures reads { read_faults self.new ≡ read_faults self.old };
}
