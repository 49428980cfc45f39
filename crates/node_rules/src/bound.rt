// The bound of a node.
ghost use Rattle.std.specs.Prelude.{◌≡◌, ℕ, ◌<◌, ◌≤◌, All, length, slice_index};
ghost use Rattle.service_model.specs.declared.table.Kind.TheVariants.{Root};
ghost use Rattle.service_model.specs.Net.{Net};
ghost use Rattle.service_model.specs.Tables.{table_at, IsShaped};
ghost use Rattle.service_model.specs.Nodes.{bound_of};
ghost use Rattle.service_model.specs.CertNumbers.{TableInRange};

use service_model::{INF, Table, capped_add};

/// What the plans of a node with these roots cost at least: the sum of the roots' values, `INF` where that is less.
pub fn node_bound(tables: &[Table], roots: &[u32]) -> u64
    requires shaped { (n : Net) × ((k : ℕ) → k < length tables.now → IsShaped n tables.now k (table_at tables.now k)) }
    requires small { All TableInRange tables.now }
    requires there { All (λ k. k < length tables.now) roots.now }
    requires kinds { All (λ k. (table_at tables.now k).kind ≡ Root) roots.now }
    ensures { result ≡ bound_of tables.now roots.now }
{
    let mut bound = 0;
    'roots: for root in roots {
        bound = capped_add(bound, first_value(&tables[*root as usize]));
    }
    bound
}

fn first_value(table: &Table) -> u64
    requires { 0 < length table.now.values }
    ensures { result ≡ slice_index table.now.values 0 }
{
    *table.values.get(0)
}
