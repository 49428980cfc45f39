// Bounds and splits of nodes, as a certificate holds them.
ghost use Rattle.std.specs.Prelude.{◌≡◌, ℕ, ◌<◌, ◌∷◌, [], length, slice_index, slice_index_or, All, IfOk};
ghost use Rattle.std.specs.Option.{option_or};
ghost use Rattle.service_model.specs.Nodes.{bound_of};
ghost use Rattle.service_model.specs.Held.{cut_by};
ghost use Rattle.stock_report.specs.Explanations.{IsExplainedSplit, split_of_node};

use service_model::{INF, List, Network, NoMemory, Node, Split, Table};
use std::alloc::Global;

/// What the plans of a node with these roots cost at least: the sum of the roots' values, `INF` where that is less.
pub fn node_bound(tables: &[Table], roots: &[u32]) -> u64
    requires { All (λ k. k < length tables.now) roots.now }
    ensures { result ≡ bound_of tables.now roots.now }
{
    let mut bound: u64 = 0;
    'roots: for root in roots {
        let value = first_value(&tables[*root as usize]);
        bound = bound.saturating_add(value).min(INF);
    }
    bound
}

fn first_value(table: &Table) -> u64
    ensures { result ≡ slice_index table.now.values 0 }
{
    table.values.as_slice().first().copied().unwrap_or(0)
}

/// For each of so many nodes the first split that names it. They are sorted once, so that no search for a node is needed.
pub fn first_splits(
    alloc: Global,
    nodes: usize,
    splits: &[Split],
) -> Result<List<Option<Split>>, NoMemory>
    requires { All (λ s. s.node < nodes) splits.now }
    ensures length { IfOk result (λ firsts. length firsts ≡ nodes) }
    ensures firsts { IfOk result (λ firsts. (k : ℕ) → k < nodes → slice_index_or firsts k None ≡ split_of_node splits.now k) }
{
    let mut firsts = List::from_vec(vec![in alloc; None; nodes]?);
    'splits: for split in splits {
        put_first(&mut firsts, *split);
    }
    Ok(firsts)
}

// Puts a split in the place of its node, where no earlier one stands.
fn put_first(firsts: &mut List<Option<Split>>, split: Split)
    requires { split.node < length firsts.old }
    ensures length { length firsts.new ≡ length firsts.old }
    ensures firsts { (k : ℕ) → k < length firsts.old → slice_index_or firsts.new k None ≡ option_or (slice_index_or firsts.old k None) (split_of_node (split ∷ []) k) }
{
    let node = split.node as usize;
    if firsts.get(node).is_none() {
        firsts.set(node, Some(split));
    }
}

/// The last outbound time of the supplier in the earlier half of what a split cuts.
pub fn cut_time(network: &Network, nodes: &[Node], split: Split) -> u16
    requires { IsExplainedSplit network.now nodes.now split }
    ensures { result ≡ (cut_by network.now nodes.now split).last }
{
    let Some(plan) = &nodes[split.node as usize].relaxed else {
        unreachable!();
    };
    let transit = network.transit_between(split.supplier, split.customer);
    let inbound = *plan.inbound.get(split.customer as usize);
    inbound.saturating_sub(transit)
}
