// The roots of a node.
ghost use Rattle.std.specs.Prelude.{◌≡◌, ◌<◌, ◌↔◌, All, IsTrue, length};
ghost use Rattle.service_model.specs.declared.table.Kind.TheVariants.{Root};
ghost use Rattle.service_model.specs.Tables.{table_at};

use service_model::{Kind, Table};

/// Whether each of the numbers is that of a Root table.
pub fn are_roots(tables: &[Table], roots: &[u32]) -> bool
    ensures { IsTrue result ↔ All (λ k. (k < length tables.now) × ((table_at tables.now k).kind ≡ Root)) roots.now }
{
    roots.iter().all(|root| is_root(tables, *root))
}

fn is_root(tables: &[Table], root: u32) -> bool
    ensures { IsTrue result ↔ ((root < length tables.now) × ((table_at tables.now root).kind ≡ Root)) }
{
    (root as usize) < tables.len() && tables[root as usize].kind == Kind::Root
}
