// The shape of a table: its own numbers, and which tables are its children.
ghost use Rattle.std.specs.Prelude.{◌≡◌, ◌<◌, ◌↔◌, All, IsTrue, length, nat_lt};
ghost use Rattle.std.specs.List.{list_any};
ghost use Rattle.service_model.specs.CertRules.{IsTable, most_floor as most_floor_of};
ghost use Rattle.service_model.specs.Tables.{IsChild, Supplies, table_at, width};

use service_model::{Kind, Network, SupplyArc, Table};

fn any_transit(arcs: &[SupplyArc]) -> bool
    ensures { result ≡ list_any (λ a. nat_lt 0 a.transit) arcs.now }
{
    arcs.iter().any(|arc| arc.transit > 0)
}

/// The greatest floor that a table may have, once for all tables of a network.
pub fn most_floor(network: &Network) -> u16
    ensures { result ≡ most_floor_of network.now }
{
    let horizon = network.horizon();
    if any_transit(network.arcs().as_slice()) {
        horizon + 1
    } else {
        horizon
    }
}

// How many values the table is to have.
fn value_count(table: &Table, horizon: u16) -> usize
    ensures { result ≡ width table.now.kind horizon table.now.least table.now.most table.now.floor }
{
    match table.kind {
        Kind::Down => (table.most as usize + 1).saturating_sub(table.least as usize),
        Kind::Up => (horizon as usize + 1).saturating_sub(table.floor as usize),
        Kind::Root => 1,
    }
}

/// Whether the table's stage, interval, floor and number of values are of the network.
pub fn is_table(network: &Network, most_floor: u16, table: &Table) -> bool
    requires { most_floor ≡ most_floor_of network.now }
    ensures { IsTrue result ↔ IsTable network.now table.now }
{
    (table.stage as usize) < network.stages().len()
        && table.least <= table.most
        && table.most <= network.horizon()
        && table.floor <= most_floor
        && table.values.len() == value_count(table, network.horizon())
}

/// Whether each of the numbers is below the count.
pub fn are_earlier(children: &[u32], count: usize) -> bool
    ensures { IsTrue result ↔ All (λ c. c < count) children.now }
{
    children.iter().all(|child| (*child as usize) < count)
}

fn supplies(arcs: &[SupplyArc], supplier: u32, customer: u32) -> bool
    ensures { IsTrue result ↔ Supplies arcs.now supplier customer }
{
    arcs.iter()
        .any(|arc| arc.supplier == supplier && arc.customer == customer)
}

// Whether the table of this number may be a child of a table of the stage.
fn may_be_child(network: &Network, earlier: &[Table], child: u32, stage: u32) -> bool
    requires { child < length earlier.now }
    ensures { IsTrue result ↔ IsChild (table_at earlier.now child).kind network.now.arcs (table_at earlier.now child).stage stage }
{
    let arcs = network.arcs().as_slice();
    let child = &earlier[child as usize];
    match child.kind {
        Kind::Down => supplies(arcs, child.stage, stage),
        Kind::Up => supplies(arcs, stage, child.stage),
        Kind::Root => false,
    }
}

/// Whether the tables of these numbers may be children of a table of the stage.
pub fn are_children(network: &Network, earlier: &[Table], children: &[u32], stage: u32) -> bool
    requires { All (λ c. c < length earlier.now) children.now }
    ensures { IsTrue result ↔ All (λ c. IsChild (table_at earlier.now c).kind network.now.arcs (table_at earlier.now c).stage stage) children.now }
{
    'children: for child in children {
        if !may_be_child(network, earlier, *child, stage) {
            return false;
        }
    }
    true
}
