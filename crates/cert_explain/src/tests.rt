ghost use Rattle.std.specs.Prelude.{IfOk};
ghost use Rattle.stage_file.specs.Records.{AreCountable};
ghost use Rattle.stage_file.specs.Raw.{AreFiles};
ghost use Rattle.network_check.specs.Checked.{IsChecked};

// The certificate of a diamond of four stages, worked out by hand, whole and forged.
use crate::explained;
use bound_cert::CertFault;
use cert_check::CheckFault;
use network_check::{Checked, check};
use service_model::NoMemory;
use service_model::cert_rules::{LOCAL, NO_END};
use stage_file::{Files, ReadFault, Rows, rows_of};
use std::alloc::{AllocError, Global};
use std::test::Fail;

const STAGES: &[u8] = b"stage\nA,2,,,,a,1\nB,0,,,,b,1\nC,0,,,,c,1\nD,0,,,0,d,1\n";

const TABLES: &[u8] = b"table\na,0,3,7\nb,0,6,6\nc,0,1,1\nd,0,8,8\n";

const ARCS: &[u8] = b"supplier\nA,B\nA,C\nB,D\nC,D\n";

const LINES: [&str; 16] = [
    "[\"gsm-cert\",1,2,4,1000]",
    "[\"t\",3,1,0,0,0,[],[0,8,8]]",
    "[\"t\",2,1,0,2,0,[],[0,0,0]]",
    "[\"t\",1,1,0,2,0,[0],[0,6,6]]",
    "[\"t\",0,2,0,2,0,[2,1],[6]]",
    "[\"n\",[3],[[0,2,2,0],[2,0,2,0]]]",
    "[\"s\",0,2,3]",
    "[\"t\",2,1,0,0,0,[],[0,1,1]]",
    "[\"t\",0,2,0,2,0,[2,4],[7]]",
    "[\"n\",[5],[[0,2,2,0],[2,0,0,0]]]",
    "[\"t\",3,1,0,0,1,[],[8,8]]",
    "[\"t\",2,1,1,2,0,[],[4611686018427387904,0,0]]",
    "[\"t\",1,1,0,2,0,[6],[8,8,8]]",
    "[\"t\",0,2,0,2,0,[8,7],[8]]",
    "[\"n\",[9],[[0,2,2,2],[2,2,2,0]]]",
    END,
];

const END: &str = "[\"e\",0,7,[[0,2,2,0],[2,0,0,0]]]";

const EXPLANATION: &[u8] = b"valid,optimal,7
node,0,6,split,C,D,0
node,1,7,leaf
node,2,8,leaf
tight,A,B,2
tight,A,C,2
tight,B,D,0
tight,C,D,0
limit,A,2
limit,D,0
";

// No bytes here are more.
const LONGEST: usize = 100_000;

// A line that is changed, what stands in its place, and the fault of the certificate then.
struct Forgery {
    place: usize,
    line: &'static str,
    fault: CertFault,
}

const FORGERIES: [Forgery; 2] = [
    Forgery {
        place: 3,
        line: "[\"t\",1,1,0,2,0,[0],[0,7,6]]\n",
        fault: CertFault {
            line: 4,
            rule: LOCAL,
        },
    },
    Forgery {
        place: 15,
        line: "",
        fault: CertFault {
            line: 16,
            rule: NO_END,
        },
    },
];

fn rows(alloc: Global, text: &[u8]) -> Result<Rows, NoMemory>
    ensures { IfOk result AreCountable }
{
    if text.len() > LONGEST {
        return Err(NoMemory);
    }
    rows_of(alloc, text)
}

fn files(alloc: Global) -> Result<Files, NoMemory>
    ensures { IfOk result AreFiles }
{
    Ok(Files {
        stages: rows(alloc, STAGES)?,
        tables: rows(alloc, TABLES)?,
        arcs: rows(alloc, ARCS)?,
    })
}

fn diamond(alloc: Global) -> Result<Checked, ReadFault>
    ensures { IfOk result IsChecked }
{
    let files = files(alloc)?;
    check(alloc, &files, 2)
}

// The certificate's bytes, with the line at a place put otherwise.
fn bytes_with(alloc: Global, place: usize, line: &str) -> Result<Vec<u8>, AllocError> {
    let mut bytes = Vec::new(alloc);
    for (k, good) in LINES.iter().enumerate() {
        if k == place {
            bytes.extend_from_slice(line.as_bytes())?;
        } else {
            bytes.extend_from_slice(good.as_bytes())?;
            bytes.push(b'\n')?;
        }
    }
    Ok(bytes)
}

// Why a forgery is not explained.
fn fault_of(alloc: Global, forgery: &Forgery) -> Result<Option<CheckFault>, Fail> {
    let checked = diamond(alloc)?;
    let bytes = bytes_with(alloc, forgery.place, forgery.line)?;
    if bytes.len() > LONGEST {
        return Ok(None);
    }
    Ok(explained(alloc, &checked, &bytes).err())
}

#[test]
fn a_certificate_is_explained(rt: HostRuntime) -> Result<(), Fail> {
    let alloc = rt.alloc();
    let checked = diamond(alloc)?;
    let bytes = bytes_with(alloc, LINES.len(), "")?;
    assert!(rt; bytes.len() <= LONGEST);
    let text = explained(alloc, &checked, &bytes)?;
    assert_eq!(rt; text.as_slice(), EXPLANATION);
    Ok(())
}

#[test]
fn the_first_rule_that_a_forged_line_breaks_is_named(rt: HostRuntime) -> Result<(), Fail> {
    for forgery in &FORGERIES {
        let fault = Some(CheckFault::Fault(forgery.fault));
        assert_eq!(rt; fault_of(rt.alloc(), forgery)?, fault);
    }
    Ok(())
}
