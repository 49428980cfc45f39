// The local inequalities of a table.
ghost use Rattle.std.specs.Prelude.{◌≡◌, ◌≤◌, ◌↔◌, All, IfOk, IsTrue, length};
ghost use Rattle.service_model.specs.CertNumbers.{TableInRange};
ghost use Rattle.service_model.specs.Tables.{IsShaped};
ghost use Rattle.service_model.specs.LocalSums.{Local};
ghost use Rattle.table_rules.specs.Shapes.{AreShaped};

use crate::columns::columns_hold;
use crate::sums::{write_down_sums, write_up_sums};
use service_model::{Network, NoMemory, Table};
use std::alloc::Global;
use std::marker::Model;

/// Room for what the children of a table cost at each time up to a horizon, to be used for one table after another.
#[derive(Drop)]
pub struct Scratch {
    horizon: u16,
    down: Vec<u64>,
    up: Vec<u64>,
}

impl Model for Scratch {
    ghost use Rattle.std.specs.Prelude.{ℕ, ◌≡◌, ◌+◌, vec_len};

    ghost Value = { ℕ };

    ghost view = { λ it. it.horizon };

    ghost invariant = { λ it. (vec_len it.down ≡ it.horizon + 1) × (vec_len it.up ≡ it.horizon + 1) };
}

impl Scratch {
    /// Room for each time from 0 to the horizon.
    pub fn new(alloc: Global, horizon: u16) -> Result<Scratch, NoMemory>
        ensures { IfOk result (λ scratch. scratch ≡ horizon) }
    {
        let times = horizon as usize + 1;
        let down = vec![in alloc; 0u64; times]?;
        let up = vec![in alloc; 0u64; times]?;
        Ok(Scratch { horizon, down, up })
    }
}

/// Whether every value of the table is at most every local sum that it covers.
pub fn local_holds(
    network: &Network,
    table: &Table,
    earlier: &[Table],
    scratch: &mut Scratch,
) -> bool
    requires earlier { AreShaped network.now earlier.now }
    requires shaped { IsShaped network.now earlier.now (length earlier.now) table.now }
    requires earlier_numbers { All TableInRange earlier.now }
    requires numbers { TableInRange table.now }
    requires scratch { scratch.old ≡ network.now.horizon }
    ensures holds { IsTrue result ↔ Local network.now earlier.now table.now }
    ensures scratch { scratch.new ≡ scratch.old }
{
    let children = table.children.as_slice();
    write_down_sums(network, earlier, table.stage, children, &mut scratch.down);
    write_up_sums(network, earlier, table.stage, children, &mut scratch.up);
    columns_hold(network, table, &scratch.down, &scratch.up)
}
