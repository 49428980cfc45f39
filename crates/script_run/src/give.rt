// Giving what is told of a row: its certificate to the shelf, and then its line to the sink.
ghost use Rattle.std.specs.Prelude.{◌≡◌, ◌⊎◌, None, option_map};
ghost use Rattle.cert_files.specs.Certificates.{bytes_in};
ghost use Rattle.script_run.specs.Halts.{outside_of, numbered_name, GiveCase, NamedCase};

use crate::halt::Halt;
use crate::told::Told;
use cert_files::write_cert;
use command_words::{Naming, answer_name};
use gsm_outside::{OutFault, Shelf, Sink};
use std::alloc::Global;

/// Writes the certificate, if there is one and a name is given, under that name and its number, and then puts the line.
pub fn give_under<S: Shelf, K: Sink>(
    alloc: Global,
    told: Told,
    name: Option<&str>,
    number: u64,
    shelf: &mut S,
    out: &mut K,
) -> Result<(), Halt>
    ensures case { NamedCase (numbered_name (option_map (λ n. n.now) name.entry) number) (bytes_in told.cert) told.text (outside_of (S.held shelf.old) (S.held shelf.new) (S.write_faults shelf.old) (S.write_faults shelf.new) (K.written out.old) (K.written out.new) (K.faults out.old) (K.faults out.new)) result }
    ensures reads { S.read_faults shelf.new ≡ S.read_faults shelf.old }
    ensures unnamed { option_map (λ n. n.now) name.entry ≡ None → S.write_faults shelf.new ≡ S.write_faults shelf.old }
{
    match name {
        Some(name) => {
            let file = answer_name(alloc, Naming::Numbered, name, number)?;
            give(alloc, told, Some(file.as_str()), shelf, out)
        }
        None => give(alloc, told, None, shelf, out),
    }
}

// Writes the certificate, if there is one and a name is given, and then puts the line.
fn give<S: Shelf, K: Sink>(
    alloc: Global,
    told: Told,
    name: Option<&str>,
    shelf: &mut S,
    out: &mut K,
) -> Result<(), Halt>
    ensures case { GiveCase (option_map (λ n. n.now) name.entry) (bytes_in told.cert) told.text (outside_of (S.held shelf.old) (S.held shelf.new) (S.write_faults shelf.old) (S.write_faults shelf.new) (K.written out.old) (K.written out.new) (K.faults out.old) (K.faults out.new)) result }
    ensures reads { S.read_faults shelf.new ≡ S.read_faults shelf.old }
    ensures unnamed { option_map (λ n. n.now) name.entry ≡ None → S.write_faults shelf.new ≡ S.write_faults shelf.old }
{
    let Told { text, cert } = told;
    match write_cert(alloc, shelf, name, cert) {
        Ok(()) => match out.put(text.as_slice()) {
            Ok(()) => Ok(()),
            Err(OutFault::Failed) => Err(Halt::Sink),
            Err(OutFault::NoMemory) => Err(Halt::NoMemory),
        },
        Err(OutFault::Failed) => Err(Halt::Shelf),
        Err(OutFault::NoMemory) => Err(Halt::NoMemory),
    }
}
