// Tables by their numbers.
ghost use Rattle.std.specs.Prelude.{◌≡◌, ◌<◌, length};
ghost use Rattle.service_model.specs.Tables.{table_at};

use service_model::Table;

pub fn table_in(tables: &[Table], number: usize) -> &Table
    requires { number < length tables.now }
    ensures { result.now ≡ table_at tables.now number }
{
    &tables[number]
}
