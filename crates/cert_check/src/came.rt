// What came of a certificate.
ghost use Rattle.std.specs.Prelude.{◌≡◌, ◌<◌, ◌≤◌, ◌+◌, ◌*◌, ◌==◌, ◌++◌, ◌↔◌, [], ◌∷◌, None, Contains, length, is_none, is_some, OnOk, OnErr, IsTrue, nat_lt, nat_le};
ghost use Rattle.service_model.specs.declared.cert.Item.TheVariants.{Head as HeadItem, Table as TableItem, End as EndItem};
ghost use Rattle.service_model.specs.Items as listed;

use crate::numbers::in_range;
use service_model::cert_rules::{AFTER_END, HEAD, PLACE, SHAPE};
use service_model::{Head, Item, List, NoMemory, Node, Split, Table, Verdict};
use split_rules::{Halves, Leaf, Leaves};
use std::alloc::Global;
use std::marker::Model;

/// A split, and the halves that it makes of the range of its node.
#[derive(Drop)]
struct Parted {
    split: Split,
    halves: Halves,
}

/// The items of a certificate that came.
#[derive(Drop)]
pub(crate) struct Came {
    head: Option<Head>,
    tables: List<Table>,
    nodes: List<Node>,
    parted: List<Parted>,
    /// The nodes that no split names.
    leaves: Leaves,
    verdict: Option<Verdict>,
}

impl Model for Came {
    ghost use Rattle.std.specs.Prelude.{map};
    ghost use Rattle.cert_check.specs.Arrivals.{Arrivals};

    ghost Value = { Arrivals };

    ghost view = { λ c. record {
      held = record { head = c.head; tables = c.tables; nodes = c.nodes; splits = map (λ p. p.split) c.parted; verdict = c.verdict };
      halves = map (λ p. p.halves) c.parted;
      leaves = c.leaves;
    } };
}

impl Came {
    ghost use Rattle.service_model.specs.Net.{Net};
    ghost use Rattle.service_model.specs.Held.{held_with, budget_of, node_at, is_misplaced};
    ghost use Rattle.cert_check.specs.Frames.{IsFrameFault};
    ghost use Rattle.cert_check.specs.Arrivals.{none_arrived, halves_at, IsNodeMore, IsSplitMore, IsUnchanged};

    pub(crate) fn new(alloc: Global) -> Came
        ensures { result ≡ none_arrived }
    {
        Came {
            head: None,
            tables: List::new(alloc),
            nodes: List::new(alloc),
            parted: List::new(alloc),
            leaves: Leaves::new(alloc),
            verdict: None,
        }
    }

    pub(crate) fn tables(&self) -> &[Table]
        ensures { result.now ≡ self.now.held.tables }
    {
        self.tables.as_slice()
    }

    pub(crate) fn node_count(&self) -> usize
        ensures { result ≡ length self.now.held.nodes }
    {
        self.nodes.len()
    }

    pub(crate) fn node(&self, at: usize) -> &Node
        requires { at < length self.now.held.nodes }
        ensures { result.now ≡ node_at self.now.held.nodes at }
    {
        self.nodes.get(at)
    }

    /// The halves that a split makes.
    pub(crate) fn halves(&self, at: usize) -> &Halves
        requires { at < length self.now.halves }
        ensures { result.now ≡ halves_at self.now.halves at }
    {
        let parted = self.parted.get(at);
        &parted.halves
    }

    pub(crate) fn leaves(&self) -> &Leaves
        ensures { result.now ≡ self.now.leaves }
    {
        &self.leaves
    }

    /// How many nodes the head allows.
    pub(crate) fn budget(&self) -> u32
        ensures { result ≡ budget_of self.now.held }
    {
        match &self.head {
            None => 0,
            Some(head) => head.budget,
        }
    }

    pub(crate) fn into_verdict(self) -> Option<Verdict>
        ensures { result ≡ self.held.verdict }
    {
        self.verdict
    }

    // Whether two nodes at most came for each split, so that a node comes next.
    fn wants_node(&self) -> bool
        ensures { result ≡ nat_le (length self.now.held.nodes) (2 * length self.now.held.splits) }
    {
        let splits = self.parted.len();
        self.nodes.len().saturating_sub(splits) <= splits
    }

    fn is_misplaced(&self, item: &Item) -> bool
        ensures { result ≡ is_misplaced (length self.now.held.nodes) (length self.now.held.splits) item.now }
    {
        match item {
            Item::Head(_) | Item::Table(_) => false,
            Item::Node(_) => !self.wants_node(),
            Item::Split(_) | Item::End(_) => self.wants_node(),
        }
    }

    /// The first of the rules up to PLACE that fails on the item.
    pub(crate) fn frame_fault(&self, item: &Item) -> Option<u8>
        ensures { (n : Net) → IsFrameFault n self.now.held item.now result }
    {
        if !in_range(item) {
            return Some(SHAPE);
        }
        if is_head(item) != self.head.is_none() {
            return Some(HEAD);
        }
        if self.verdict.is_some() {
            return Some(AFTER_END);
        }
        if self.is_misplaced(item) {
            return Some(PLACE);
        }
        None
    }

    pub(crate) fn set_head(&mut self, head: Head)
        ensures { self.new ≡ record self.old { held = held_with self.old.held (HeadItem head) } }
    {
        self.head = Some(head);
    }

    pub(crate) fn push_table(&mut self, table: Table) -> Result<(), NoMemory>
        ensures ok { OnOk result (self.new ≡ record self.old { held = held_with self.old.held (TableItem table) }) }
        ensures err { OnErr result (self.new ≡ self.old) }
    {
        self.tables.push(table)
    }

    // The number of the node that comes next.
    fn next_number(&self) -> u32
        requires { length self.now.held.nodes < budget_of self.now.held }
        ensures { result ≡ length self.now.held.nodes }
    {
        let _budget = self.budget();
        self.nodes.len() as u32
    }

    /// Keeps a node of this bound, which no leaf has with the node's number.
    pub(crate) fn push_node(&mut self, node: Node, bound: u64) -> Result<(), NoMemory>
        requires room { length self.old.held.nodes < budget_of self.old.held }
        requires fresh { Contains self.old.leaves (record { bound = bound; node = length self.old.held.nodes }) → ⊥ }
        ensures ok { OnOk result (IsNodeMore self.old self.new node bound) }
        ensures err { OnErr result (IsUnchanged self.old self.new) }
    {
        let leaf = Leaf {
            bound,
            node: self.next_number(),
        };
        if let Err(fault) = self.leaves.insert(leaf) {
            return Err(fault);
        }
        if let Err(fault) = self.nodes.push(node) {
            self.leaves.remove(leaf);
            return Err(fault);
        }
        Ok(())
    }

    /// Keeps a split of the node of this bound.
    pub(crate) fn push_split(
        &mut self,
        split: Split,
        halves: Halves,
        bound: u64,
    ) -> Result<(), NoMemory>
        ensures ok { OnOk result (IsSplitMore self.old self.new split halves bound) }
        ensures err { OnErr result (IsUnchanged self.old self.new) }
    {
        if let Err(fault) = self.parted.push(Parted { split, halves }) {
            return Err(fault);
        }
        self.leaves.remove(Leaf {
            bound,
            node: split.node,
        });
        Ok(())
    }

    pub(crate) fn set_verdict(&mut self, verdict: Verdict)
        ensures { self.new ≡ record self.old { held = held_with self.old.held (EndItem verdict) } }
    {
        self.verdict = Some(verdict);
    }
}

fn is_head(item: &Item) -> bool
    ensures { result ≡ listed.is_head item.now }
{
    match item {
        Item::Head(_) => true,
        _ => false,
    }
}
