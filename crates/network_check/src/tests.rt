ghost use Rattle.std.specs.Prelude.{IfOk};
ghost use Rattle.stage_file.specs.Records.{AreCountable};
ghost use Rattle.stage_file.specs.Raw.{AreFiles};

// The worked case of a cycle, networks made by hand, and the smallest files that show the order of the rules.
use crate::*;
use service_model::{List, NoMemory, SupplyArc};
use stage_file::rules::{CYCLE, NO_CUSTOMERS, NO_TABLE, SELF_ARC, TOO_LARGE};
use stage_file::{FileFault, FileKind, Files, ReadFault, Rows, raw_net, rows_of};
use std::alloc::Global;
use std::test::Fail;

const STAGES: &[u8] = b"stage\nA,3,,,,a,2\nB,2,1,1,3,b,3\n";

const TABLES: &[u8] = b"table\na,0,2,3,4\nb,0,5,7,9,10,12\n";

fn rows(alloc: Global, text: &[u8]) -> Result<Rows, NoMemory>
    ensures { IfOk result AreCountable }
{
    if text.len() > 1_000 {
        return Err(NoMemory);
    }
    rows_of(alloc, text)
}

fn files(alloc: Global, stages: &[u8], tables: &[u8], arcs: &[u8]) -> Result<Files, NoMemory>
    ensures { IfOk result AreFiles }
{
    Ok(Files {
        stages: rows(alloc, stages)?,
        tables: rows(alloc, tables)?,
        arcs: rows(alloc, arcs)?,
    })
}

#[test]
fn two_stages_and_an_arc_make_a_network(rt: HostRuntime) -> Result<(), Fail> {
    let files = files(rt.alloc(), STAGES, TABLES, b"supplier\nB,A,7\n")?;
    let checked = check(rt.alloc(), &files, 4)?;
    let network = &checked.network;
    assert_eq!(rt; network.horizon(), 4);
    assert_eq!(rt; network.stages().len(), 2);
    let b = network.stages().get(1);
    assert_eq!(rt; (b.lead, b.supply, b.least, b.most), (2, 1, 1, 3));
    assert_eq!(rt; b.cost.as_slice(), [0, 15, 21, 27, 30].as_slice());
    let arc = SupplyArc {
        supplier: 1,
        customer: 0,
        transit: 0,
    };
    assert_eq!(rt; network.arcs().as_slice(), [arc].as_slice());
    assert_eq!(rt; (checked.names.len(), checked.excess.len()), (2, 2));
    assert_eq!(rt; checked.names.get(1).as_slice(), b"B".as_slice());
    assert_eq!(rt; checked.units.as_slice(), [2, 3].as_slice());
    assert_eq!(rt; checked.excess.get(0).as_slice(), [0, 2, 3, 4].as_slice());
    assert_eq!(rt;
        checked.excess.get(1).as_slice(),
        [0, 5, 7, 9, 10].as_slice()
    );
    assert_eq!(rt;
        topological(rt.alloc(), network)?.as_slice(),
        [1, 0].as_slice()
    );
    assert_eq!(rt; budget_of(network, None), Ok(1_000));
    Ok(())
}

fn is(lists: &List<List<u64>>, stage: usize, excess: &[u64]) -> bool {
    stage < lists.len() && lists.get(stage).as_slice() == excess
}

#[test]
fn bounds_of_each_kind_make_a_network(rt: HostRuntime) -> Result<(), Fail> {
    let stages =
        b"stage\nS,1,,,,sum,2\nP,1,,,,pool,3\nM,1,,,,normal:5,1\nN,1,,,,normal:12,1\nA,1,,,,a,1\n";
    let arcs = b"supplier\nS,M,2\nS,N\nP,M\nP,N\n";
    let files = files(rt.alloc(), stages, TABLES, arcs)?;
    let checked = check_records(rt.alloc(), &raw_net(rt.alloc(), &files, 3)?)?;
    assert!(rt;
        is(&checked.excess, 2, &[0, 5, 8, 9]),
        "roots of 0, 25, 50, 75"
    );
    assert!(rt;
        is(&checked.excess, 3, &[0, 12, 17, 21]),
        "roots of 0, 144, 288, 432"
    );
    assert!(rt;
        is(&checked.excess, 0, &[0, 22, 33, 39]),
        "2 * 5 + 12, 2 * 8 + 17, 2 * 9 + 21"
    );
    assert!(rt;
        is(&checked.excess, 1, &[0, 13, 19, 23]),
        "roots of 0, 169, 353, 522"
    );
    let stages = checked.network.stages();
    assert_eq!(rt; stages.len(), 5);
    assert_eq!(rt; stages.get(0).cost.as_slice(), [0, 44, 66, 78].as_slice());
    assert_eq!(rt; stages.get(1).cost.as_slice(), [0, 39, 57, 69].as_slice());
    Ok(())
}

// Stages, arcs, and the rule, the file, the record and the column of their refusal.
type Case = (&'static [u8], &'static [u8], u8, FileKind, u32, u32);

const CASES: [Case; 6] = [
    // The worked case: D is reached by the cycle, and does not reach itself.
    (
        b"stage\nD,1,,,,a,1\nA,1,,,,a,1\nB,1,,,,a,1\nC,1,,,,a,1\n",
        b"supplier\nA,B,1\nB,C,1\nC,A,1\nC,D,1\n",
        CYCLE,
        FileKind::Stages,
        3,
        1,
    ),
    // A cycle comes before a bound, whatever stage has it,
    (
        b"stage\nA,1,,,,u,1\nB,1,,,,a,1\nC,1,,,,a,1\n",
        b"supplier\nB,C\nC,B\n",
        CYCLE,
        FileKind::Stages,
        3,
        1,
    ),
    // and an earlier file before a cycle.
    (
        b"stage\nA,1,,,,a,1\nB,1,,,,a,1\n",
        b"supplier\nA,B\nB,A\nA,A\n",
        SELF_ARC,
        FileKind::Arcs,
        4,
        2,
    ),
    // Then the bounds: each names a table, each has customers where it asks for them, and no excess demand is too large.
    (
        b"stage\nA,1,,,,sum,1\nB,1,,,,u,1\n",
        b"",
        NO_TABLE,
        FileKind::Stages,
        3,
        6,
    ),
    (
        b"stage\nA,1,,,,sum,1\n",
        b"",
        NO_CUSTOMERS,
        FileKind::Stages,
        2,
        6,
    ),
    (
        b"stage\nA,1,,,,normal:1000000000,1\n",
        b"",
        TOO_LARGE,
        FileKind::Stages,
        2,
        6,
    ),
];

#[test]
fn the_first_rule_is_refused_at_its_place(rt: HostRuntime) -> Result<(), Fail> {
    for (stages, arcs, rule, file, row, column) in CASES {
        let files = files(rt.alloc(), stages, TABLES, arcs)?;
        let fault = FileFault {
            file,
            row,
            rule,
            column,
        };
        assert_eq!(rt;
            check(rt.alloc(), &files, 4).err(),
            Some(ReadFault::Fault(fault)),
            "F{rule} at {row}, {column}"
        );
    }
    Ok(())
}
