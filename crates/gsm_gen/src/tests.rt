// Networks that were drawn by a script of its own, tools/make_trial, and words of the published reference.
use super::*;
use crate::draws::Draws;
use network_check::check;
use service_model::NoMemory;
use stage_file::{Rows, Text};
use std::alloc::Global;
use std::test::Fail;

// The first words of the seed 1234567 are 6457827717110365317, 3203168211198807973 and 9817491932198370423; those of 0 are
// 16294208416658607535 and 7960286522194355700.
#[test]
fn draws_are_remainders_of_the_words_of_the_reference(rt: HostRuntime) {
    let mut draws = Draws::of_seed(1_234_567);
    assert_eq!(rt; draws.draw(1_000_000_000), 110_365_317);
    assert_eq!(rt; draws.draw(1_000_000_000), 198_807_973);
    assert_eq!(rt; draws.draw(1_000_000_000), 198_370_423);
    let mut draws = Draws::of_seed(0);
    assert_eq!(rt; draws.draw(1_000_000_000), 658_607_535);
    assert_eq!(rt; draws.draw(1_000_000_000), 194_355_700);
}

// The last stage has the lowest rank, so two arcs leave it against the numbers. Four of the six pairs add nothing.
const STAGE_FILE: &[u8] =
    b"stage,lead,supply,least,most,bound,unit\ns1,0,,,,normal:47,4\ns2,7,,,,normal:99,33\ns3,8,,,,normal:84,17\ns4,1,,,0,normal:91,31\ns5,8,,,,normal:98,1\n";

const ARC_FILE: &[u8] =
    b"supplier,customer,quantity\ns1,s2,1\ns2,s3,1\ns3,s4,1\ns5,s4,1\ns5,s2,1\ns1,s3,1\n";

fn text_of(alloc: Global, rows: &Rows) -> Result<Vec<u8>, NoMemory> {
    let mut text = Vec::new(alloc);
    for k in 0..rows.len() {
        put_row(&mut text, rows.get(k).as_slice())?;
    }
    Ok(text)
}

fn put_row(text: &mut Vec<u8>, fields: &[Text]) -> Result<(), NoMemory> {
    for k in 0..fields.len() {
        if k > 0 {
            text.push(b',')?;
        }
        text.extend_from_slice(fields[k].as_slice())?;
    }
    text.push(b'\n')?;
    Ok(())
}

#[test]
fn five_stages_are_drawn_as_by_the_script(rt: HostRuntime) -> Result<(), Fail> {
    let files = make(rt.alloc(), 7, 5, 6, 20)?;
    assert_eq!(rt; text_of(rt.alloc(), &files.stages)?.as_slice(), STAGE_FILE);
    assert_eq!(rt; text_of(rt.alloc(), &files.arcs)?.as_slice(), ARC_FILE);
    assert_eq!(rt; files.tables.len(), 0);
    Ok(())
}

#[test]
fn five_stages_are_a_network(rt: HostRuntime) -> Result<(), Fail> {
    let files = make(rt.alloc(), 7, 5, 6, 20)?;
    let checked = check(rt.alloc(), &files, 20)?;
    assert_eq!(rt; checked.network.stages().len(), 5);
    assert_eq!(rt; checked.network.arcs().len(), 6);
    Ok(())
}

#[test]
fn a_horizon_below_ten_bounds_the_leads(rt: HostRuntime) -> Result<(), Fail> {
    let files = make(rt.alloc(), 0, 2, 1, 3)?;
    let stages =
        b"stage,lead,supply,least,most,bound,unit\ns1,0,,,,normal:80,45\ns2,2,,,0,normal:14,41\n";
    assert_eq!(rt;
        text_of(rt.alloc(), &files.stages)?.as_slice(),
        stages.as_slice()
    );
    Ok(())
}

// The script writes 4,975 arcs for the seed 1.
#[test]
fn the_largest_network_is_made(rt: HostRuntime) -> Result<(), Fail> {
    let files = make(rt.alloc(), 1, 1_000, MAX_EXTRA, 400)?;
    assert_eq!(rt; files.stages.len(), 1_001);
    assert_eq!(rt; files.arcs.len(), 4_976);
    Ok(())
}
