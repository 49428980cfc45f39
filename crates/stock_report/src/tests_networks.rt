// The diamond: its certificate explained, its clusters, its trial.
ghost use Rattle.std.specs.Prelude.{◌≡◌, ◌<◌, ◌∷◌, [], length, All, IfOk, IfSome};
ghost use Rattle.service_model.specs.Plans.{HasTimes, Feasible};
ghost use Rattle.network_check.specs.Checked.{IsChecked};
ghost use Rattle.stock_report.specs.Explanations.{IsExplainable};

use super::*;
use crate::tests::{feasible_plan, plan_of, rows};
use network_check::{Checked, check};
use service_model::{Cert, Head, Kind, List, NoMemory, Node, Outcome, Plan, Split, Table, Verdict};
use stage_file::{Files, Text};
use std::alloc::Global;
use std::test::Fail;

// A supplies B and C, and both supply D.
fn diamond(alloc: Global) -> Result<Checked, Fail>
    ensures { IfOk result IsChecked }
{
    let files = Files {
        stages: rows(
            alloc,
            b"stage\nA,2,,,,a,1\nB,0,,,,b,1\nC,0,,,,c,1\nD,0,,,0,d,1\n",
        )?,
        tables: rows(alloc, b"table\na,0,3,7\nb,0,6,6\nc,0,1,1\nd,0,8,8\n")?,
        arcs: rows(alloc, b"supplier\nA,B,1\nA,C,1\nB,D,1\nC,D,1\n")?,
    };
    let checked = check(alloc, &files, 2)?;
    Ok(checked)
}

// The diamond with a further stage E that D supplies.
fn diamond_and_tail(alloc: Global) -> Result<Checked, Fail>
    ensures { IfOk result IsChecked }
{
    let files = Files {
        stages: rows(
            alloc,
            b"stage\nA,2,,,,a,1\nB,0,,,,b,1\nC,0,,,,c,1\nD,0,,,0,d,1\nE,0,,,,d,1\n",
        )?,
        tables: rows(alloc, b"table\na,0,3,7\nb,0,6,6\nc,0,1,1\nd,0,8,8\n")?,
        arcs: rows(alloc, b"supplier\nA,B,1\nA,C,1\nB,D,1\nC,D,1\nD,E,1\n")?,
    };
    let checked = check(alloc, &files, 2)?;
    Ok(checked)
}

// A root's table with one value, which is all that is looked up of it.
fn root_table(alloc: Global, value: u64) -> Result<Table, NoMemory> {
    Ok(Table {
        stage: 0,
        kind: Kind::Root,
        least: 0,
        most: 0,
        floor: 0,
        children: List::new(alloc),
        values: List::copied(alloc, &[value])?,
    })
}

// The root tables with these values.
fn root_tables(alloc: Global, values: [u64; 3]) -> Result<List<Table>, NoMemory>
    ensures { IfOk result (λ tables. length tables ≡ 3) }
{
    let mut tables = List::new(alloc);
    tables.push(root_table(alloc, values[0])?)?;
    tables.push(root_table(alloc, values[1])?)?;
    tables.push(root_table(alloc, values[2])?)?;
    Ok(tables)
}

// A node over one root's table.
fn node(alloc: Global, root: u32, relaxed: Option<Plan>) -> Result<Node, NoMemory>
    ensures { IfOk result (λ x. x ≡ record { seen = 0; roots = root ∷ []; relaxed = relaxed }) }
{
    Ok(Node {
        seen: 0,
        roots: List::copied(alloc, &[root])?,
        relaxed,
    })
}

// What a text looks up of the diamond's certificate: its first range was cut at the arc from C to D.
fn diamond_cert(alloc: Global, checked: &Checked) -> Result<Cert, Fail>
    ensures { IfOk result (IsExplainable checked.now.network) }
{
    if checked.network.stages().len() != 4 {
        return Err("there are not four stages".into());
    }
    let relaxed = plan_of(alloc, checked, &[0, 2, 2, 0], &[2, 0, 2, 0])?;
    let plan = feasible_plan(alloc, checked, &[0, 2, 2, 0], &[2, 0, 0, 0])?;
    let mut nodes = List::new(alloc);
    nodes.push(node(alloc, 0, Some(relaxed))?)?;
    nodes.push(node(alloc, 1, None)?)?;
    nodes.push(node(alloc, 2, None)?)?;
    let split = Split {
        node: 0,
        supplier: 2,
        customer: 3,
    };
    Ok(Cert {
        head: Head {
            horizon: 2,
            stages: 4,
            budget: 1_000,
        },
        tables: root_tables(alloc, [6, 7, 8])?,
        nodes,
        splits: List::copied(alloc, &[split])?,
        verdict: Verdict {
            outcome: Outcome::Optimal,
            bound: 7,
            plan: Some(plan),
        },
    })
}

#[test]
fn the_certificate_of_the_diamond_is_explained(rt: HostRuntime) -> Result<(), Fail> {
    let alloc = rt.alloc();
    let checked = diamond(alloc)?;
    let cert = diamond_cert(alloc, &checked)?;
    let text = explain_text(alloc, &checked, &cert)?;
    assert_eq!(rt;
        text.as_slice(),
        b"valid,optimal,7\nnode,0,6,split,C,D,0\nnode,1,7,leaf\nnode,2,8,leaf\ntight,A,B,2\ntight,A,C,2\ntight,B,D,0\ntight,C,D,0\nlimit,A,2\nlimit,D,0\n".as_slice()
    );
    Ok(())
}

// The text of these bridges and clusters, where they fit the network.
fn clusters_of(
    alloc: Global,
    checked: &Checked,
    bridge: u32,
    clusters: [u32; 5],
) -> Result<Text, Fail>
    requires { IsChecked checked.now }
{
    if checked.network.stages().len() != 5 || bridge as usize >= checked.network.arcs().len() {
        return Err("the network has other numbers".into());
    }
    let bridges = List::copied(alloc, &[bridge])?;
    let clusters = List::copied(alloc, &clusters)?;
    let text = cluster_text(alloc, checked, &bridges, &clusters)?;
    Ok(text)
}

#[test]
fn a_tail_of_the_diamond_is_a_cluster_of_its_own(rt: HostRuntime) -> Result<(), Fail> {
    let alloc = rt.alloc();
    let checked = diamond_and_tail(alloc)?;
    let text = clusters_of(alloc, &checked, 4, [1, 1, 1, 1, 2])?;
    assert_eq!(rt;
        text.as_slice(),
        b"clusters,2\nstage,cluster\nA,1\nB,1\nC,1\nD,1\nE,2\nbridge,D,E\n".as_slice()
    );
    Ok(())
}

#[test]
fn a_trial_is_summed_up(rt: HostRuntime) -> Result<(), Fail> {
    let alloc = rt.alloc();
    let checked = diamond(alloc)?;
    let plan = feasible_plan(alloc, &checked, &[0, 2, 2, 0], &[2, 0, 0, 0])?;
    let verdict = Verdict {
        outcome: Outcome::Optimal,
        bound: 7,
        plan: Some(plan),
    };
    let text = trial_text(alloc, 5, &checked.network, &verdict, 3, 10)?;
    assert_eq!(rt;
        text.as_slice(),
        b"trial,5,4,4\noptimal,7\nranges,3\nfilled,10\ncheck,valid\n".as_slice()
    );
    Ok(())
}
