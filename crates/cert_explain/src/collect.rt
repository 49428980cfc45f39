// The certificate that bytes are.
ghost use Rattle.std.specs.Prelude.{◌≡◌, ◌≤◌, ◌^◌, length, IfOk};
ghost use Rattle.service_model.specs.declared.cert.Cert.{Cert};
ghost use Rattle.bound_cert.specs.declared.fault.FeedStop.{FeedStop};
ghost use Rattle.cert_check.specs.Bytes.{whole};
ghost use Rattle.cert_explain.specs.Explained.{IsWholeCert};

use bound_cert::{CertReader, FeedStop};
use service_model::{Cert, Collector, NoMemory};
use std::alloc::Global;

/// The certificate of the items that the bytes give, where no rule on lines fails on them.
pub(crate) fn cert_in(alloc: Global, bytes: &[u8]) -> Result<Cert, NoMemory>
    requires few { length bytes.now ≤ 2 ^ 32 }
    requires whole { (c : Cert) × IsWholeCert bytes.now c }
    ensures { IfOk result (IsWholeCert bytes.now) }
{
    match collected(alloc, bytes)?.cert() {
        Some(cert) => Ok(cert),
        None => unreachable!(),
    }
}

// All items of the bytes.
fn collected(alloc: Global, bytes: &[u8]) -> Result<Collector, NoMemory>
    requires few { length bytes.now ≤ 2 ^ 32 }
    requires whole { (c : Cert) × IsWholeCert bytes.now c }
    ensures { IfOk result (λ items. items ≡ (whole bytes.now).0) }
{
    let mut collector = Collector::new(alloc);
    let mut reader = CertReader::new(alloc);
    if let Err(stop) = reader.feed(bytes, &mut collector, &mut ()) {
        return Err(want(stop));
    }
    if let Err(stop) = reader.finish(&mut collector, &mut ()) {
        return Err(want(stop));
    }
    Ok(collector)
}

// No rule fails and a collector refuses nothing, so a stop is want of memory.
fn want(stop: FeedStop) -> NoMemory
    requires { stop ≡ FeedStop.NoMemory }
{
    match stop {
        FeedStop::NoMemory => NoMemory,
        FeedStop::Fault(_) => unreachable!(),
        FeedStop::Stopped(_) => unreachable!(),
    }
}
