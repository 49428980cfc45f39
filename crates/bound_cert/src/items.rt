// The items of a certificate, in the order in which they are written.
ghost use Rattle.std.specs.Prelude.{◌≡◌, ◌∷◌, [], ◌++◌, List, length, map, take, drop, OnOk, IfOk};
ghost use Rattle.service_model.specs.declared.cert.Item.TheVariants.{Table as TableItem, Split as SplitItem, End as EndItem};
ghost use Rattle.service_model.specs.Items as listed;

use crate::rest::Rest;
use service_model::{Cert, Item, List, NoMemory, Node, Split, Table, Verdict};
use std::alloc::Global;

/// The items made so far, and the tables and splits that are left.
#[derive(Drop)]
struct Arranged {
    items: List<Item>,
    tables: Rest<Table>,
    splits: Rest<Split>,
    /// How many tables the nodes that came have seen.
    came: u32,
    /// The next node has an even number, and a split after it.
    is_even: bool,
}

// Makes items of so many tables, or of all that are left.
fn add_tables(
    items: &mut List<Item>,
    tables: &mut Rest<Table>,
    count: usize,
) -> Result<(), NoMemory>
    ensures items { OnOk result (items.new ≡ items.old ++ map TableItem (take count tables.old)) }
    ensures left { OnOk result (tables.new ≡ drop count tables.old) }
{
    'tables: for _ in 0..count {
        let Some(table) = tables.next() else {
            return Ok(());
        };
        items.push(Item::Table(table))?;
    }
    Ok(())
}

// Makes items of so many splits, or of all that are left.
fn add_splits(
    items: &mut List<Item>,
    splits: &mut Rest<Split>,
    count: usize,
) -> Result<(), NoMemory>
    ensures items { OnOk result (items.new ≡ items.old ++ map SplitItem (take count splits.old)) }
    ensures left { OnOk result (splits.new ≡ drop count splits.old) }
{
    'splits: for _ in 0..count {
        let Some(split) = splits.next() else {
            return Ok(());
        };
        items.push(Item::Split(split))?;
    }
    Ok(())
}

impl Arranged {
    ghost use Rattle.service_model.specs.declared.cert.Node.{Node};
    ghost use Rattle.bound_cert.specs.Arranged.{with_nodes};

    // Makes items of the tables that a node has seen, of the node, and of the split after it.
    fn add_node(&mut self, node: Node) -> Result<(), NoMemory>
        ensures { OnOk result ((nodes : List Node) → with_nodes self.new nodes ≡ with_nodes self.old (node ∷ nodes)) }
    {
        let seen = node.seen;
        let count = seen.saturating_sub(self.came) as usize;
        add_tables(&mut self.items, &mut self.tables, count)?;
        self.items.push(Item::Node(node))?;
        if self.is_even {
            add_splits(&mut self.items, &mut self.splits, 1)?;
        }
        self.came = self.came.max(seen);
        self.is_even = !self.is_even;
        Ok(())
    }

    // All items, with the tables and splits that are left and the verdict behind the last node.
    fn ended(self, verdict: Verdict) -> Result<List<Item>, NoMemory>
        ensures { IfOk result (λ items. items ≡ with_nodes self [] ++ EndItem verdict ∷ []) }
    {
        let Arranged {
            mut items,
            mut tables,
            mut splits,
            ..
        } = self;
        let tables_left = tables.len();
        add_tables(&mut items, &mut tables, tables_left)?;
        let splits_left = splits.len();
        add_splits(&mut items, &mut splits, splits_left)?;
        items.push(Item::End(verdict))?;
        Ok(items)
    }
}

/// The items of a certificate, in the order in which they are written.
pub fn items_of(alloc: Global, cert: Cert) -> Result<List<Item>, NoMemory>
    ensures { IfOk result (λ items. items ≡ listed.items_of cert) }
{
    let mut items = List::new(alloc);
    items.push(Item::Head(cert.head))?;
    let mut arranged = Arranged {
        items,
        tables: Rest::new(cert.tables),
        splits: Rest::new(cert.splits),
        came: 0,
        is_even: true,
    };
    'nodes: for node in cert.nodes.into_vec() {
        arranged.add_node(node)?;
    }
    arranged.ended(cert.verdict)
}
