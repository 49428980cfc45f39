use crate::tests::run_over;
use gsm_outside::SureSink;
use std::alloc::Global;
use std::test::Fail;

const TABLES: &str = "table,x\nf,0,3,5\ng,0,4,5,6\ndown,7,4,1\ncut,2\n";

// Stages, arcs and the first line of the answer, which tools/enumerate_plans found by looking at every plan at horizon 2: in a row,
// up to one stage, down from one, with children on both sides, in two parts, without a plan, with a list cut short and one that falls.
const TREES: [(&str, &str, &str); 8] = [
    (
        "A,1,,,,f,1\nB,2,,,,g,2\nC,1,,,0,f,3\n",
        "A,B\nB,C\n",
        "optimal,22\n",
    ),
    (
        "A,1,,,,f,3\nB,2,1,,,g,1\nC,1,,,1,f,1\n",
        "A,C\nB,C\n",
        "optimal,8\n",
    ),
    (
        "A,2,,,,g,1\nB,0,,,0,f,2\nC,1,,,1,f,5\n",
        "A,B\nA,C\n",
        "optimal,5\n",
    ),
    (
        "C,1,,,,down,1\nA,1,,,,f,1\nB,1,,1,1,g,2\n",
        "A,C\nA,B\n",
        "optimal,4\n",
    ),
    (
        "A,1,,,,f,1\nB,1,,,0,down,1\nC,2,,,1,g,1\n",
        "B,A\n",
        "optimal,5\n",
    ),
    (
        "A,2,,,0,cut,1\nB,1,,,,f,1\nC,1,2,2,2,cut,1\n",
        "B,A\nC,B\n",
        "infeasible\n",
    ),
    ("A,1,,,1,cut,3\nB,0,,,0,down,2\n", "A,B\n", "optimal,8\n"),
    (
        "C,2,,,0,g,3\nB,1,,,,g,2\nA,1,,,,f,5\nD,1,,,1,down,1\n",
        "A,B\nB,C\nB,D\n",
        "optimal,26\n",
    ),
];

#[test]
fn no_plan_of_a_small_tree_costs_less(rt: HostRuntime) -> Result<(), Fail> {
    let alloc = rt.alloc();
    for (stages, arcs, first) in TREES {
        let stages = format!(in alloc; "stage,lead,supply,least,most,bound,unit\n{stages}")?;
        let arcs = format!(in alloc; "supplier,customer,quantity\n{arcs}")?;
        let mut out = SureSink::new(alloc);
        let files = [stages.as_str(), TABLES, arcs.as_str()];
        run_over(alloc, "horizon=2", files, &mut out)?;
        assert!(rt; out.written().starts_with(first.as_bytes()), "{}", stages);
    }
    Ok(())
}

// The rows of stages in a line, each the supplier of the next.
fn line_of_stages(alloc: Global) -> Result<(String, String), Fail> {
    let mut stages = String::from_str(alloc, "stage,lead,supply,least,most,bound,unit\n")?;
    let mut arcs = String::from_str(alloc, "supplier,customer,quantity\n")?;
    for k in 1..1001 {
        stages.push_str(format!(in alloc; "s{k},0,,,,f,1\n")?.as_str())?;
    }
    for k in 1..1000 {
        let next = k + 1;
        arcs.push_str(format!(in alloc; "s{k},s{next},1\n")?.as_str())?;
    }
    Ok((stages, arcs))
}

#[test]
fn a_line_of_a_thousand_stages_is_solved(rt: HostRuntime) -> Result<(), Fail> {
    let alloc = rt.alloc();
    let (stages, arcs) = line_of_stages(alloc)?;
    let mut out = SureSink::new(alloc);
    let files = [stages.as_str(), TABLES, arcs.as_str()];
    run_over(alloc, "horizon=2", files, &mut out)?;
    assert!(rt; out.written().starts_with(b"optimal,0\n"));
    assert!(rt; out.written().ends_with(b"ranges,1\nfilled,1000\n"));
    Ok(())
}

#[test]
fn either_of_two_least_plans_may_come(rt: HostRuntime) -> Result<(), Fail> {
    let alloc = rt.alloc();
    let mut out = SureSink::new(alloc);
    let files = [
        "stage,lead,supply,least,most,bound,unit\nA,3,,,,a,1\nB,2,,,0,b,1\n",
        "table,x\na,0,2,3,4\nb,0,5,7,9,10,11\n",
        "supplier,customer,quantity\nA,B,1\n",
    ];
    run_over(alloc, "horizon=5", files, &mut out)?;
    assert!(rt; out.written().starts_with(b"optimal,11\n"));
    assert!(rt; out.written().ends_with(b"ranges,1\nfilled,2\n"));
    Ok(())
}
