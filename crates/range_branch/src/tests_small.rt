// Verdicts of small networks with loops, beside the least cost that tools/enumerate_plans finds by a look at every plan.
use crate::tests::{Row, arc, network, searched};
use service_model::{INF, List, NoMemory, Outcome, SupplyArc, Verdict};
use std::alloc::Global;
use std::test::Fail;

// The stages, the suppliers and customers of the arcs, and the least cost at horizon 3, `INF` where no plan is feasible.
type Case = (&'static [Row<'static>], &'static [(u32, u32)], u64);

// Without the arcs that the forest drops each costs less: 0, 3, 16, 16, 6 and 8.
const CASES: [Case; 6] = [
    (
        &[
            (0, 3, &[0, 5, 9]),
            (3, 3, &[0, 4, 5, 8]),
            (0, 0, &[0, 2, 4, 5]),
        ],
        &[(0, 1), (0, 2), (1, 2)],
        5,
    ),
    (
        &[
            (1, 3, &[0, 2, 2, 9]),
            (1, 0, &[0, 1, 2, 9]),
            (3, 3, &[0, 1, 8]),
        ],
        &[(0, 1), (0, 2), (2, 1)],
        12,
    ),
    (
        &[
            (2, 3, &[0, 2, 5, 7]),
            (1, 3, &[0, 2, 8, 8]),
            (2, 0, &[0, 5, 7]),
            (3, 3, &[0, 1, 2, 6]),
        ],
        &[(0, 2), (1, 0), (1, 2), (3, 0), (3, 1), (3, 2)],
        20,
    ),
    (
        &[
            (1, 3, &[0, 5, 5]),
            (3, 0, &[0, 0, 7, 9]),
            (3, 3, &[0, 2, 2, 3]),
            (3, 3, &[0, 0, 1, 2]),
        ],
        &[(0, 1), (0, 2), (2, 1), (3, 1), (3, 2)],
        19,
    ),
    (
        &[
            (1, 3, &[0, 1, 6, 7]),
            (2, 3, &[0]),
            (3, 0, &[0, 0, 1, 5]),
            (0, 3, &[0]),
        ],
        &[(0, 1), (0, 2), (0, 3), (1, 2), (3, 1)],
        INF,
    ),
    (
        &[
            (3, 3, &[0, 3, 5, 7]),
            (2, 3, &[0]),
            (2, 0, &[0, 0, 1, 9]),
            (2, 3, &[0, 5]),
        ],
        &[(0, 1), (0, 2), (0, 3), (1, 2), (1, 3), (3, 2)],
        INF,
    ),
];

fn arcs_of(alloc: Global, pairs: &[(u32, u32)]) -> Result<List<SupplyArc>, NoMemory> {
    let mut arcs = List::new(alloc);
    for (supplier, customer) in pairs {
        arcs.push(arc(*supplier, *customer))?;
    }
    Ok(arcs)
}

// The verdict fits the least cost, and a search with this many nodes was spent only where two more would pass the budget.
fn fits(verdict: &Verdict, nodes: usize, budget: u32, least: u64) -> bool {
    match verdict.outcome {
        Outcome::Optimal => verdict.bound == least,
        Outcome::Infeasible => least == INF,
        Outcome::Spent => verdict.bound <= least
            && nodes < budget as usize + 1
            && nodes + 2 > budget as usize,
    }
}

#[test]
fn no_verdict_is_against_a_look_at_every_plan(rt: HostRuntime) -> Result<(), Fail> {
    let alloc = rt.alloc();
    for (rows, pairs, least) in CASES {
        for budget in [1, 2, 3, 1_000] {
            let arcs = arcs_of(alloc, pairs)?;
            let made = searched(alloc, network(alloc, 3, rows, arcs.as_slice()), budget)?;
            let nodes = made.cert.nodes.len();
            assert!(rt;
                fits(&made.cert.verdict, nodes, budget, least),
                "{least} {budget}"
            );
        }
    }
    Ok(())
}
