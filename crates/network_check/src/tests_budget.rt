use crate::budget_of;
use service_model::{List, Network, NewFault, NoMemory, Stage};
use stage_file::rules::BUDGET;
use stage_file::{FileFault, FileKind};
use std::alloc::Global;
use std::test::Fail;

// So many stages without arcs.
fn network(alloc: Global, stages: u32, horizon: u16) -> Result<Network, NewFault> {
    let mut list = List::new(alloc);
    for _ in 0..stages {
        list.push(Stage {
            lead: 0,
            supply: 0,
            least: 0,
            most: 0,
            cost: List::copied(alloc, &[0])?,
        })?;
    }
    if list.len() > 1_000 {
        return Err(NoMemory.into());
    }
    Network::new(alloc, horizon, list, List::new(alloc))
}

#[test]
fn a_budget_keeps_the_limit(rt: HostRuntime) -> Result<(), Fail> {
    let refused = Err(FileFault {
        file: FileKind::Words,
        row: 0,
        rule: BUDGET,
        column: 0,
    });
    let middle = network(rt.alloc(), 100, 40)?;
    assert_eq!(rt;
        budget_of(&middle, Some(9_756)),
        Ok(9_756),
        "39,999,600 values"
    );
    assert_eq!(rt;
        budget_of(&middle, Some(9_757)),
        refused,
        "40,003,700 values"
    );
    let least = network(rt.alloc(), 1, 0)?;
    assert_eq!(rt; budget_of(&least, None), Ok(1_000), "as for most networks");
    let greatest = network(rt.alloc(), 1_000, 400)?;
    assert_eq!(rt; budget_of(&greatest, None), Ok(99), "39,699,000 values");
    Ok(())
}
