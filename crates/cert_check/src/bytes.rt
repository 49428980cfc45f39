// Certificates as bytes.
ghost use Rattle.std.specs.Prelude.{◌≡◌, ◌≤◌, ◌^◌, length};
ghost use Rattle.service_model.specs.Takers.{state_of};
ghost use Rattle.bound_cert.specs.Stream.{Place};
ghost use Rattle.bound_cert.specs.Feeding.{Feeds};
ghost use Rattle.cert_check.specs.Checking.{StandsFor, Refuses, new_checking};
ghost use Rattle.cert_check.specs.Refusals.{HasRule, refusal_by};
ghost use Rattle.cert_check.specs.Bytes.{whole, ChecksBytes};

use crate::check_fault::CheckFault;
use crate::checker::Checker;
use bound_cert::{CertFault, CertReader, FeedStop};
use service_model::{Network, Verdict};
use std::alloc::Global;

// Hands all items of the bytes to a checker.
fn hand_whole(alloc: Global, bytes: &[u8], checker: &mut Checker) -> Result<(), FeedStop>
    requires { length bytes.now ≤ 2 ^ 32 }
    ensures feeds { (place : Place) × Feeds (whole bytes.now)
        (state_of (StandsFor checker.old) checker.old.stops (Refuses checker.old))
        (state_of (StandsFor checker.new) checker.new.stops (Refuses checker.new)) 0 place result }
    ensures keeps { checker.new.network ≡ checker.old.network }
{
    let mut reader = CertReader::new(alloc);
    if let Err(stop) = reader.feed(bytes, checker, &mut ()) {
        return Err(stop);
    }
    reader.finish(checker, &mut ())
}

/// Why there is no verdict: the reader's fault, or the checker's on the line that it refused.
pub(crate) fn refusal(stop: FeedStop, rule: Option<u8>) -> CheckFault
    requires { HasRule stop rule }
    ensures { result ≡ refusal_by stop rule }
{
    match stop {
        FeedStop::Fault(fault) => CheckFault::Fault(fault),
        FeedStop::Stopped(line) => match rule {
            Some(rule) => CheckFault::Fault(CertFault { line, rule }),
            None => unreachable!(),
        },
        FeedStop::NoMemory => CheckFault::NoMemory,
    }
}

/// The verdict of a certificate for a network, which is true of it, or the first line on which a rule fails, from 1 on,
/// and the first rule that fails on it. Where the end is missing that is the line behind the last.
pub fn check_bytes(alloc: Global, network: &Network, bytes: &[u8]) -> Result<Verdict, CheckFault>
    requires { length bytes.now ≤ 2 ^ 32 }
    ensures { ChecksBytes network.now bytes.now result }
{
    let mut checker = Checker::new(alloc, network)?;
    if let Err(stop) = hand_whole(alloc, bytes, &mut checker) {
        return Err(refusal(stop, checker.fault()));
    }
    match checker.verdict() {
        Some(verdict) => Ok(verdict),
        None => unreachable!(),
    }
}
