// What `clusters` prints.
ghost use Rattle.std.specs.Prelude.{◌≡◌, ◌<◌, ◌++◌, length, map, All, IfOk, OnOk};
ghost use Rattle.std.specs.List.{range_with_len};
ghost use Rattle.network_check.specs.Checked.{IsChecked};
ghost use Rattle.stock_report.specs.Lines.{lines_of};
ghost use Rattle.stock_report.specs.ClusterRows.{cluster_count, count_row, member_row, bridge_row, cluster_rows};

use crate::names::{name_of, push_ends};
use crate::text::{number, row_of, text_of};
use network_check::Checked;
use service_model::{List, NoMemory};
use stage_file::{Row, Rows, Text};
use std::alloc::Global;

/// What is printed of the clusters of a network, one number for each stage, and of the bridges between them, which are
/// numbers of arcs.
pub fn cluster_text(
    alloc: Global,
    checked: &Checked,
    bridges: &List<u32>,
    clusters: &List<u32>,
) -> Result<Text, NoMemory>
    requires checked { IsChecked checked.now }
    requires bridges { All (λ a. a < length checked.now.network.arcs) bridges.now }
    requires clusters { length clusters.now ≡ length checked.now.network.stages }
    ensures { IfOk result (λ text. text ≡ lines_of (cluster_rows checked.now bridges.now clusters.now)) }
{
    let rows = cluster_rows(alloc, checked, bridges.as_slice(), clusters.as_slice())?;
    text_of(alloc, rows.as_slice())
}

fn cluster_rows(
    alloc: Global,
    checked: &Checked,
    bridges: &[u32],
    clusters: &[u32],
) -> Result<Rows, NoMemory>
    requires checked { IsChecked checked.now }
    requires bridges { All (λ a. a < length checked.now.network.arcs) bridges.now }
    requires clusters { length clusters.now ≡ length checked.now.network.stages }
    ensures { IfOk result (λ rows. rows ≡ cluster_rows checked.now bridges.now clusters.now) }
{
    let mut rows = List::new(alloc);
    rows.push(count_row(alloc, clusters)?)?;
    rows.push(row_of(alloc, &["stage", "cluster"])?)?;
    push_members(alloc, checked, clusters, &mut rows)?;
    push_bridges(alloc, checked, bridges, &mut rows)?;
    Ok(rows)
}

fn count_row(alloc: Global, clusters: &[u32]) -> Result<Row, NoMemory>
    ensures { IfOk result (λ row. row ≡ count_row clusters.now) }
{
    let mut row = row_of(alloc, &["clusters"])?;
    row.push(number(alloc, cluster_count(clusters) as u64)?)?;
    Ok(row)
}

// The greatest number of a cluster.
fn cluster_count(clusters: &[u32]) -> u32
    ensures { result ≡ cluster_count clusters.now }
{
    clusters.iter().fold(0, |most, number| most.max(*number))
}

// Puts each stage with its cluster behind rows, in the order of the stages.
fn push_members(
    alloc: Global,
    checked: &Checked,
    clusters: &[u32],
    rows: &mut Rows,
) -> Result<(), NoMemory>
    requires checked { IsChecked checked.now }
    requires clusters { length clusters.now ≡ length checked.now.network.stages }
    ensures { OnOk result (rows.new ≡ rows.old ++ map (member_row checked.now clusters.now) (range_with_len 0 (length checked.now.network.stages))) }
{
    'stages: for place in 0..clusters.len() {
        rows.push(member_row(alloc, checked, clusters, place)?)?;
    }
    Ok(())
}

fn member_row(
    alloc: Global,
    checked: &Checked,
    clusters: &[u32],
    place: usize,
) -> Result<Row, NoMemory>
    requires names { place < length checked.now.names }
    requires clusters { place < length clusters.now }
    ensures { IfOk result (λ row. row ≡ member_row checked.now clusters.now place) }
{
    let mut row = List::new(alloc);
    row.push(name_of(alloc, checked, place)?)?;
    row.push(number(alloc, clusters[place] as u64)?)?;
    Ok(row)
}

// Puts each bridge behind rows, in the order that they come in.
fn push_bridges(
    alloc: Global,
    checked: &Checked,
    bridges: &[u32],
    rows: &mut Rows,
) -> Result<(), NoMemory>
    requires checked { IsChecked checked.now }
    requires bridges { All (λ a. a < length checked.now.network.arcs) bridges.now }
    ensures { OnOk result (rows.new ≡ rows.old ++ map (bridge_row checked.now) bridges.now) }
{
    'bridges: for bridge in bridges {
        rows.push(bridge_row(alloc, checked, *bridge)?)?;
    }
    Ok(())
}

fn bridge_row(alloc: Global, checked: &Checked, bridge: u32) -> Result<Row, NoMemory>
    requires checked { IsChecked checked.now }
    requires bridge { bridge < length checked.now.network.arcs }
    ensures { IfOk result (λ row. row ≡ bridge_row checked.now bridge) }
{
    let mut row = row_of(alloc, &["bridge"])?;
    push_ends(alloc, checked, bridge as usize, &mut row)?;
    Ok(row)
}
