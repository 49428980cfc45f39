// The explanation of bytes.
ghost use Rattle.std.specs.Prelude.{◌≤◌, ◌^◌, length, Ok, IfOk};
ghost use Rattle.service_model.specs.declared.cert.Verdict.{Verdict};
ghost use Rattle.cert_check.specs.Bytes.{ChecksBytes};
ghost use Rattle.network_check.specs.Checked.{IsChecked};
ghost use Rattle.cert_explain.specs.Explained.{Explains, ExplainCase};

use crate::collect::cert_in;
use cert_check::{CheckFault, check_bytes};
use network_check::Checked;
use service_model::NoMemory;
use stage_file::Text;
use std::alloc::Global;
use stock_report::explain_text;

/// The text that explains the certificate that the bytes are, where it is accepted for the network. Else the first line on
/// which a rule fails, from 1 on, and the first rule that fails on it; where the end is missing that is the line behind the last.
pub fn explained(alloc: Global, checked: &Checked, bytes: &[u8]) -> Result<Text, CheckFault>
    requires network { IsChecked checked.now }
    requires few { length bytes.now ≤ 2 ^ 32 }
    ensures { ExplainCase checked.now bytes.now result }
{
    // Bytes are read twice: once to check them, while nothing is kept, and once to keep what an accepted certificate has.
    let _verdict = check_bytes(alloc, &checked.network, bytes)?;
    Ok(accepted_text(alloc, checked, bytes)?)
}

// The text that explains accepted bytes.
fn accepted_text(alloc: Global, checked: &Checked, bytes: &[u8]) -> Result<Text, NoMemory>
    requires network { IsChecked checked.now }
    requires few { length bytes.now ≤ 2 ^ 32 }
    requires accepted { (v : Verdict) × ChecksBytes checked.now.network bytes.now (Ok v) }
    ensures { IfOk result (Explains checked.now bytes.now) }
{
    let _horizon = checked.network.horizon();
    let cert = cert_in(alloc, bytes)?;
    explain_text(alloc, checked, &cert)
}
