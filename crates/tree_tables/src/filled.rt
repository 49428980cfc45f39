// Tables that were filled, which contracts see as tables.
ghost use Rattle.std.specs.Prelude.{◌≡◌};

use service_model::Table;
use std::marker::Model;

/// A table whose values were filled.
#[derive(Drop)]
pub struct Filled {
    table: Table,
}

impl Model for Filled {
    ghost use Rattle.service_model.specs.declared.table.Table.{Table};

    ghost Value = { Table };

    ghost view = { λ filled. filled.table };
}

impl Filled {
    // What filling made.
    pub(crate) fn new(table: Table) -> Filled
        ensures { result ≡ table }
    {
        Filled { table }
    }

    /// The table.
    pub fn table(&self) -> &Table
        ensures { result.now ≡ self.now }
    {
        &self.table
    }
}
