// Writing a certificate to the shelf.
ghost use Rattle.std.specs.Prelude.{◌≡◌, None, Some, OnOk, OnErr, flat_map, option_map};
ghost use Rattle.gsm_outside.specs.Causes.{HasCause};
ghost use Rattle.gsm_outside.specs.Held.{put_in};
ghost use Rattle.bound_cert.specs.Lines as lines;
ghost use Rattle.cert_files.specs.Certificates.{cert_bytes, bytes_in, put_cert, PutPart, KeepsOthers};

use bound_cert::{items_of, line_of};
use gsm_outside::{OutFault, Shelf};
use service_model::{Cert, Item};
use std::alloc::Global;

/// Writes the certificate under the name that is asked for, if there are both.
pub fn write_cert<S: Shelf>(
    alloc: Global,
    shelf: &mut S,
    name: Option<&str>,
    cert: Option<Cert>,
) -> Result<(), OutFault>
    ensures ok { OnOk result (S.held shelf.new ≡ put_cert (option_map (λ s. s.now) name.entry) (bytes_in cert) (S.held shelf.old)) }
    ensures err { OnErr result (PutPart (option_map (λ s. s.now) name.entry) (bytes_in cert) (S.held shelf.old) (S.held shelf.new)) }
    ensures none { option_map (λ s. s.now) name.entry ≡ None → S.write_faults shelf.new ≡ S.write_faults shelf.old }
    ensures cause { HasCause (S.write_faults shelf.old) (S.write_faults shelf.new) result }
    ensures reads { S.read_faults shelf.new ≡ S.read_faults shelf.old }
{
    match (name, cert) {
        (Some(name), Some(cert)) => write_whole(alloc, shelf, name, cert),
        (_, _) => Ok(()),
    }
}

// Writes a certificate under a name, in the place of what was there.
#[tactic(auto, unfolding(crate::specs::Certificates::cert_bytes))]
fn write_whole<S: Shelf>(
    alloc: Global,
    shelf: &mut S,
    name: &str,
    cert: Cert,
) -> Result<(), OutFault>
    ensures ok { OnOk result (S.held shelf.new ≡ put_in name.now (cert_bytes cert) (S.held shelf.old)) }
    ensures err { OnErr result (PutPart (Some name.now) (Some (cert_bytes cert)) (S.held shelf.old) (S.held shelf.new)) }
    ensures cause { HasCause (S.write_faults shelf.old) (S.write_faults shelf.new) result }
    ensures reads { S.read_faults shelf.new ≡ S.read_faults shelf.old }
{
    let Ok(items) = items_of(alloc, cert) else {
        return Err(OutFault::NoMemory);
    };
    write_lines(alloc, shelf, name, items.as_slice())
}

// Writes the lines of items under a name, one after another.
fn write_lines<S: Shelf>(
    alloc: Global,
    shelf: &mut S,
    name: &str,
    items: &[Item],
) -> Result<(), OutFault>
    ensures ok { OnOk result (S.held shelf.new ≡ put_in name.now (flat_map lines.line_of items.now) (S.held shelf.old)) }
    ensures err { OnErr result (PutPart (Some name.now) (Some (flat_map lines.line_of items.now)) (S.held shelf.old) (S.held shelf.new)) }
    ensures cause { HasCause (S.write_faults shelf.old) (S.write_faults shelf.new) result }
    ensures reads { S.read_faults shelf.new ≡ S.read_faults shelf.old }
{
    shelf.create(name)?;
    'lines: for item in items {
        let Ok(line) = line_of(alloc, item) else {
            return Err(OutFault::NoMemory);
        };
        shelf.append(name, line.as_slice())?;
    }
    Ok(())
}
