// The first rule on a table that fails.
ghost use Rattle.std.specs.Prelude.{◌≡◌, All};
ghost use Rattle.service_model.specs.CertNumbers.{TableInRange};
ghost use Rattle.service_model.specs.CertRules.{IsFirstOf, TableRule, most_floor as most_floor_of};
ghost use Rattle.table_rules.specs.Shapes.{AreShaped};

use crate::local::{Scratch, local_holds};
use crate::shape::{are_children, are_earlier, is_table};
use service_model::cert_rules::{CHILD, CHILD_ARC, LOCAL, TABLE};
use service_model::{Network, Table};

/// The first rule on tables that fails, by its number, none where all hold.
pub fn table_fault(
    network: &Network,
    most_floor: u16,
    table: &Table,
    earlier: &[Table],
    scratch: &mut Scratch,
) -> Option<u8>
    requires floor { most_floor ≡ most_floor_of network.now }
    requires earlier { AreShaped network.now earlier.now }
    requires earlier_numbers { All TableInRange earlier.now }
    requires numbers { TableInRange table.now }
    requires scratch { scratch.old ≡ network.now.horizon }
    ensures first { IsFirstOf (TableRule network.now earlier.now table.now) result }
    ensures scratch { scratch.new ≡ scratch.old }
{
    if !is_table(network, most_floor, table) {
        return Some(TABLE);
    }
    let children = table.children.as_slice();
    if !are_earlier(children, earlier.len()) {
        return Some(CHILD);
    }
    if !are_children(network, earlier, children, table.stage) {
        return Some(CHILD_ARC);
    }
    if !local_holds(network, table, earlier, scratch) {
        return Some(LOCAL);
    }
    None
}
