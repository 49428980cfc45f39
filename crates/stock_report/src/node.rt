// What is told of each node of a certificate: its bound, and what became of it.
ghost use Rattle.std.specs.Prelude.{◌≡◌, ◌<◌, ◌++◌, length, map, All, IfOk, OnOk, IfSome};
ghost use Rattle.std.specs.List.{range_with_len};
ghost use Rattle.network_check.specs.Checked.{IsChecked};
ghost use Rattle.stock_report.specs.Explanations.{IsExplainable, IsExplainedSplit, bound_text, split_of_node, fate_of, node_row};

use crate::fates::{cut_time, first_splits, node_bound};
use crate::names::push_name;
use crate::text::{number, row_of};
use network_check::Checked;
use service_model::{Cert, INF, List, NoMemory, Split};
use stage_file::{Row, Rows, Text};
use std::alloc::Global;

/// Puts what is told of each node behind rows, in the order of the nodes.
pub fn push_nodes(
    alloc: Global,
    checked: &Checked,
    cert: &Cert,
    rows: &mut Rows,
) -> Result<(), NoMemory>
    requires checked { IsChecked checked.now }
    requires explainable { IsExplainable checked.now.network cert.now }
    ensures { OnOk result (rows.new ≡ rows.old ++ map (node_row checked.now cert.now) (range_with_len 0 (length cert.now.nodes))) }
{
    let splits = first_splits(alloc, cert.nodes.len(), cert.splits.as_slice())?;
    'nodes: for place in 0..cert.nodes.len() {
        let row = node_row(alloc, checked, cert, place, *splits.get(place))?;
        rows.push(row)?;
    }
    Ok(())
}

// What is told of a node, given the split that names it.
fn node_row(
    alloc: Global,
    checked: &Checked,
    cert: &Cert,
    place: usize,
    split: Option<Split>,
) -> Result<Row, NoMemory>
    requires checked { IsChecked checked.now }
    requires explainable { IsExplainable checked.now.network cert.now }
    requires within { place < length cert.now.nodes }
    requires split { split ≡ split_of_node cert.now.splits place }
    ensures { IfOk result (λ row. row ≡ node_row checked.now cert.now place) }
{
    let roots = cert.nodes.get(place).roots.as_slice();
    let bound = node_bound(cert.tables.as_slice(), roots);
    let mut row = row_of(alloc, &["node"])?;
    row.push(number(alloc, place as u64)?)?;
    row.push(bound_text(alloc, bound)?)?;
    push_fate(alloc, checked, cert, split, &mut row)?;
    Ok(row)
}

fn bound_text(alloc: Global, bound: u64) -> Result<Text, NoMemory>
    ensures { IfOk result (λ text. text ≡ bound_text bound) }
{
    if bound == INF {
        List::copied(alloc, b"none")
    } else {
        number(alloc, bound)
    }
}

// Puts behind a row what became of a node: that it is a leaf, or how the split that names it cut its range.
fn push_fate(
    alloc: Global,
    checked: &Checked,
    cert: &Cert,
    split: Option<Split>,
    row: &mut Row,
) -> Result<(), NoMemory>
    requires checked { IsChecked checked.now }
    requires split { IfSome split (IsExplainedSplit checked.now.network cert.now.nodes) }
    ensures { OnOk result (row.new ≡ row.old ++ fate_of checked.now cert.now split) }
{
    match split {
        None => row.push(List::copied(alloc, b"leaf")?),
        Some(split) => {
            let last = cut_time(&checked.network, cert.nodes.as_slice(), split);
            row.push(List::copied(alloc, b"split")?)?;
            push_name(alloc, checked, split.supplier, row)?;
            push_name(alloc, checked, split.customer, row)?;
            row.push(number(alloc, last as u64)?)
        }
    }
}
