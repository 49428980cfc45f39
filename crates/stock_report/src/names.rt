// Stages and arcs by their names.
ghost use Rattle.std.specs.Prelude.{◌≡◌, ◌<◌, ◌++◌, ◌∷◌, [], length, IfOk, OnOk};
ghost use Rattle.service_model.specs.Net.{arc_in};
ghost use Rattle.network_check.specs.Checked.{IsChecked, name_at};

use network_check::Checked;
use service_model::{List, NoMemory};
use stage_file::{Row, Text};
use std::alloc::Global;

/// The name of a stage.
pub fn name_of(alloc: Global, checked: &Checked, stage: usize) -> Result<Text, NoMemory>
    requires { stage < length checked.now.names }
    ensures { IfOk result (λ name. name ≡ name_at checked.now stage) }
{
    List::copied(alloc, checked.names.get(stage).as_slice())
}

/// Puts the name of a stage behind a row.
pub fn push_name(
    alloc: Global,
    checked: &Checked,
    stage: u32,
    row: &mut Row,
) -> Result<(), NoMemory>
    requires { stage < length checked.now.names }
    ensures { OnOk result (row.new ≡ row.old ++ name_at checked.now stage ∷ []) }
{
    let name = name_of(alloc, checked, stage as usize)?;
    row.push(name)
}

/// Puts the names of the two ends of an arc behind a row, the supplier's first.
pub fn push_ends(
    alloc: Global,
    checked: &Checked,
    arc: usize,
    row: &mut Row,
) -> Result<(), NoMemory>
    requires checked { IsChecked checked.now }
    requires within { arc < length checked.now.network.arcs }
    ensures { OnOk result (row.new ≡ row.old ++ name_at checked.now (arc_in checked.now.network.arcs arc).supplier ∷ name_at checked.now (arc_in checked.now.network.arcs arc).customer ∷ []) }
{
    let ends = *checked.network.arcs().get(arc);
    push_name(alloc, checked, ends.supplier, row)?;
    push_name(alloc, checked, ends.customer, row)
}
