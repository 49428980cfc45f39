// Equal copies of rows.
ghost use Rattle.std.specs.Prelude.{◌≡◌, IfOk};

use service_model::{List, NoMemory};
use stage_file::{Row, Rows, Text};
use std::alloc::Global;

/// A row of equal fields.
pub fn copied_row(alloc: Global, fields: &[Text]) -> Result<Row, NoMemory>
    ensures { IfOk result (λ row. row ≡ fields.now) }
{
    let mut row = List::new(alloc);
    'fields: for field in fields {
        row.push(List::copied(alloc, field.as_slice())?)?;
    }
    Ok(row)
}

/// Equal rows.
pub fn copied_rows(alloc: Global, rows: &[Row]) -> Result<Rows, NoMemory>
    ensures { IfOk result (λ copy. copy ≡ rows.now) }
{
    let mut copy = List::new(alloc);
    'rows: for row in rows {
        copy.push(copied_row(alloc, row.as_slice())?)?;
    }
    Ok(copy)
}
