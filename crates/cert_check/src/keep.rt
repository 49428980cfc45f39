// Items that passed are kept.
ghost use Rattle.std.specs.Prelude.{◌≡◌, Option, OnOk, OnErr};
ghost use Rattle.service_model.specs.declared.cert.Item.TheVariants.{Head as HeadItem, Table as TableItem, Node as NodeItem, Split as SplitItem, End as EndItem};
ghost use Rattle.service_model.specs.Held.{held_with};
ghost use Rattle.service_model.specs.CertRules.{Keeps};
ghost use Rattle.cert_check.specs.Keeping.{IsKept};

use crate::came::Came;
use crate::rules::Rules;
use node_rules::node_bound;
use service_model::{Head, Item, NoMemory, Node, Plan, Split, Table, Verdict};
use std::alloc::Global;

fn keep_head(rules: &Rules<'_>, came: &mut Came, found: &Option<Plan>, head: Head)
    requires kept { IsKept rules.now came.old found.now }
    requires keeps { Keeps rules.now came.old.held (HeadItem head) }
    ensures kept { IsKept rules.now came.new found.now }
    ensures more { came.new.held ≡ held_with came.old.held (HeadItem head) }
{
    came.set_head(head);
}

fn keep_table(
    rules: &Rules<'_>,
    alloc: Global,
    came: &mut Came,
    found: &Option<Plan>,
    table: &Table,
) -> Result<(), NoMemory>
    requires kept { IsKept rules.now came.old found.now }
    requires keeps { Keeps rules.now came.old.held (TableItem table.now) }
    ensures kept { IsKept rules.now came.new found.now }
    ensures ok { OnOk result (came.new.held ≡ held_with came.old.held (TableItem table.now)) }
    ensures err { OnErr result (came.new.held ≡ came.old.held) }
{
    let copied = table.copy(alloc)?;
    came.push_table(copied)?;
    Ok(())
}

// A node is a leaf, and its relaxed plan may find a better plan.
fn keep_node(
    rules: &Rules<'_>,
    alloc: Global,
    came: &mut Came,
    found: &mut Option<Plan>,
    node: &Node,
) -> Result<(), NoMemory>
    requires kept { IsKept rules.now came.old found.old }
    requires keeps { Keeps rules.now came.old.held (NodeItem node.now) }
    ensures kept { IsKept rules.now came.new found.new }
    ensures ok { OnOk result (came.new.held ≡ held_with came.old.held (NodeItem node.now)) }
    ensures err { OnErr result (came.new.held ≡ came.old.held) }
{
    let bound = node_bound(came.tables(), node.roots.as_slice());
    let later = rules.found_of(alloc, &node.relaxed)?;
    let copied = node.copy(alloc)?;
    came.push_node(copied, bound)?;
    rules.keep_better(found, later);
    Ok(())
}

// A split's node is no leaf any more, and the halves of its range are those of the next two nodes.
fn keep_split(
    rules: &Rules<'_>,
    alloc: Global,
    came: &mut Came,
    found: &Option<Plan>,
    split: Split,
) -> Result<(), NoMemory>
    requires kept { IsKept rules.now came.old found.now }
    requires keeps { Keeps rules.now came.old.held (SplitItem split) }
    ensures kept { IsKept rules.now came.new found.now }
    ensures ok { OnOk result (came.new.held ≡ held_with came.old.held (SplitItem split)) }
    ensures err { OnErr result (came.new.held ≡ came.old.held) }
{
    let node = came.node(split.node as usize);
    let bound = node_bound(came.tables(), node.roots.as_slice());
    let halves = rules.halves(alloc, came, split)?;
    came.push_split(split, halves, bound)?;
    Ok(())
}

fn keep_end(
    rules: &Rules<'_>,
    alloc: Global,
    came: &mut Came,
    found: &Option<Plan>,
    verdict: &Verdict,
) -> Result<(), NoMemory>
    requires kept { IsKept rules.now came.old found.now }
    requires keeps { Keeps rules.now came.old.held (EndItem verdict.now) }
    ensures kept { IsKept rules.now came.new found.now }
    ensures ok { OnOk result (came.new.held ≡ held_with came.old.held (EndItem verdict.now)) }
    ensures err { OnErr result (came.new.held ≡ came.old.held) }
{
    let copied = verdict.copy(alloc)?;
    came.set_verdict(copied);
    Ok(())
}

/// Keeps an item on which no rule fails.
pub(crate) fn keep(
    rules: &Rules<'_>,
    alloc: Global,
    came: &mut Came,
    found: &mut Option<Plan>,
    item: &Item,
) -> Result<(), NoMemory>
    requires kept { IsKept rules.now came.old found.old }
    requires keeps { Keeps rules.now came.old.held item.now }
    ensures kept { IsKept rules.now came.new found.new }
    ensures ok { OnOk result (came.new.held ≡ held_with came.old.held item.now) }
    ensures err { OnErr result (came.new.held ≡ came.old.held) }
{
    match item {
        Item::Head(head) => {
            keep_head(rules, came, found, *head);
            Ok(())
        }
        Item::Table(table) => keep_table(rules, alloc, came, found, table),
        Item::Node(node) => keep_node(rules, alloc, came, found, node),
        Item::Split(split) => keep_split(rules, alloc, came, found, *split),
        Item::End(verdict) => keep_end(rules, alloc, came, found, verdict),
    }
}
