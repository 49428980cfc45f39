// Certificates as they are in memory.
ghost use Rattle.cert_check.specs.Written.{ChecksCert};

use crate::check_fault::CheckFault;
use crate::walk::Walk;
use service_model::{Cert, Network, Verdict};
use std::alloc::Global;

/// The verdict of a certificate, which is true of the network, or the first of its lines on which a rule fails, from 1 on,
/// and the first rule that fails on it. A line is that of `bound_cert`; a certificate in memory has its end.
pub fn check(alloc: Global, network: &Network, cert: &Cert) -> Result<Verdict, CheckFault>
    ensures { ChecksCert network.now cert.now result }
{
    let mut walk = Walk::new(alloc, network)?;
    if let Err(fault) = walk.cert(cert) {
        return Err(fault);
    }
    match walk.into_checker().verdict() {
        Some(verdict) => Ok(verdict),
        None => unreachable!(),
    }
}
