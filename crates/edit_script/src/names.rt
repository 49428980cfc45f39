// The first record of a name.
ghost use Rattle.std.specs.Prelude.{◌≡◌, ℕ, ◌<◌, length, IfSome};
ghost use Rattle.stage_file.specs.Seen.{record_of};
ghost use Rattle.stage_file.specs.Records.{field_in};
ghost use Rattle.stage_file.specs.Stages.{is_name_of};

use crate::fields::{field_in, kept};
use stage_file::{Row, Rows, Text};

/// What an edit names: a stage or a table by the first field of its record, an arc by the first two.
#[derive(Clone, Copy)]
pub enum Name<'a> {
    One(&'a [u8]),
    Ends(&'a [u8], &'a [u8]),
}

ghost use Rattle.edit_script.specs.Names.{is_of, is_arc_of, place_of};

/// A stage or a table by its name.
pub fn by_name(name: &Text) -> Name<'_>
    ensures { is_of result ≡ is_name_of name.now }
{
    Name::One(name.as_slice())
}

/// The table that a row names.
pub fn table_in(row: &Row) -> Name<'_>
    ensures { is_of result ≡ is_name_of (field_in row.now 1) }
{
    Name::One(field_in(row.as_slice(), 1))
}

/// An arc by its ends.
pub fn between<'a>(supplier: &'a Text, customer: &'a Text) -> Name<'a>
    ensures { is_of result ≡ is_arc_of supplier.now customer.now }
{
    Name::Ends(supplier.as_slice(), customer.as_slice())
}

/// The arc whose ends a row names.
pub fn arc_in(row: &Row) -> Name<'_>
    ensures { is_of result ≡ is_arc_of (field_in row.now 1) (field_in row.now 2) }
{
    Name::Ends(field_in(row.as_slice(), 1), field_in(row.as_slice(), 2))
}

// Whether a record is that of the name, whatever its number.
#[tactic(auto, unfolding(stage_file::specs::Stages::is_name_of, stage_file::specs::Arcs::has_ends))]
fn is_of(name: &Name<'_>, fields: &[Text]) -> bool
    ensures { (number : ℕ) → result ≡ is_of name.now (record_of number fields.now) }
{
    match name {
        Name::One(name) => *name == field_in(fields, 1),
        Name::Ends(supplier, customer) => {
            *supplier == field_in(fields, 1) && *customer == field_in(fields, 2)
        }
    }
}

/// The place of the first record of a name among the rows, from 0 on.
pub fn place_of(rows: &Rows, name: &Name<'_>) -> Option<usize>
    ensures value { result ≡ place_of (is_of name.now) rows.now }
    ensures within { IfSome result (λ k. k < length rows.now) }
{
    let mut behind_header = false;
    'rows: for k in 0..rows.len() {
        let fields = kept(rows.get(k).as_slice());
        if fields.is_empty() {
            continue;
        }
        if behind_header && is_of(name, fields) {
            return Some(k);
        }
        behind_header = true;
    }
    None
}
