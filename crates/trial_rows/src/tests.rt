ghost use Rattle.std.specs.Prelude.{IfOk};
ghost use Rattle.stage_file.specs.Raw.{AreFiles};

// A trial of three stages, written out by hand.
use crate::*;
use network_check::check;
use service_model::{NoMemory, SupplyArc};
use stage_file::{Files, Rows, Text};
use std::alloc::Global;
use std::test::Fail;

const STAGES: [TrialStage; 3] = [
    TrialStage {
        rank: 2,
        lead: 3,
        factor: 7,
        unit: 4,
    },
    TrialStage {
        rank: 1,
        lead: 0,
        factor: 100,
        unit: 1,
    },
    TrialStage {
        rank: 2,
        lead: 10,
        factor: 1,
        unit: 50,
    },
];

// The second stage has the lowest rank, and of the others the first the lower number.
const ARCS: [TrialArc; 2] = [
    TrialArc {
        supplier: 1,
        customer: 0,
    },
    TrialArc {
        supplier: 0,
        customer: 2,
    },
];

const STAGE_FILE: &[u8] =
    b"stage,lead,supply,least,most,bound,unit\ns1,3,,,,normal:7,4\ns2,0,,,,normal:100,1\ns3,10,,,0,normal:1,50\n";

const ARC_FILE: &[u8] = b"supplier,customer,quantity\ns2,s1,1\ns1,s3,1\n";

fn text_of(alloc: Global, rows: &Rows) -> Result<Vec<u8>, NoMemory> {
    let mut text = Vec::new(alloc);
    for k in 0..rows.len() {
        put_row(&mut text, rows.get(k).as_slice())?;
    }
    Ok(text)
}

fn put_row(text: &mut Vec<u8>, fields: &[Text]) -> Result<(), NoMemory> {
    for k in 0..fields.len() {
        if k > 0 {
            text.push(b',')?;
        }
        text.extend_from_slice(fields[k].as_slice())?;
    }
    text.push(b'\n')?;
    Ok(())
}

#[test]
fn three_stages_are_written_as_by_hand(rt: HostRuntime) -> Result<(), Fail> {
    let files = files_of(rt.alloc(), &STAGES, &ARCS)?;
    assert_eq!(rt; text_of(rt.alloc(), &files.stages)?.as_slice(), STAGE_FILE);
    assert_eq!(rt; text_of(rt.alloc(), &files.arcs)?.as_slice(), ARC_FILE);
    assert_eq!(rt; files.tables.len(), 0);
    Ok(())
}

// The files of the trial, which are few enough to be read.
#[tactic(auto, using(crate::proofs::FewFacts::are_files))]
fn few_files(alloc: Global) -> Result<Files, NoMemory>
    ensures { IfOk result AreFiles }
{
    files_of(alloc, &STAGES, &ARCS)
}

#[test]
fn three_stages_are_a_network(rt: HostRuntime) -> Result<(), Fail> {
    let files = few_files(rt.alloc())?;
    let checked = check(rt.alloc(), &files, 10)?;
    let network = &checked.network;
    assert_eq!(rt; (network.horizon(), network.stages().len()), (10, 3));
    let first = network.stages().get(0);
    assert_eq!(rt;
        (first.lead, first.supply, first.least, first.most),
        (3, 0, 0, 10)
    );
    // The roots of 49 times 0, 1, 2 and on to 10, rounded up, each times 4.
    assert_eq!(rt;
        first.cost.as_slice(),
        [0, 28, 40, 52, 56, 64, 72, 76, 80, 84, 92].as_slice()
    );
    let third = network.stages().get(2);
    assert_eq!(rt; (third.lead, third.most), (10, 0));
    assert_eq!(rt; checked.names.get(2).as_slice(), b"s3".as_slice());
    assert_eq!(rt; checked.units.as_slice(), [4, 1, 50].as_slice());
    let arcs = [joins(1, 0), joins(0, 2)];
    assert_eq!(rt; network.arcs().as_slice(), arcs.as_slice());
    Ok(())
}

fn joins(supplier: u32, customer: u32) -> SupplyArc {
    SupplyArc {
        supplier,
        customer,
        transit: 0,
    }
}
