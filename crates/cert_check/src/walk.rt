// The lines of a certificate, one after another.
ghost use Rattle.std.specs.Prelude.{◌≡◌, ◌↔◌, ◌+◌, ◌/◌, [], ◌∷◌, ◌++◌, map, drop, take, IfOk, IsTrue};
ghost use Rattle.service_model.specs.declared.cert.Item.TheVariants.{Head as HeadItem, Table as TableItem, Node as NodeItem, Split as SplitItem, End as EndItem};
ghost use Rattle.service_model.specs.Items.{split_after, items_from, items_of};
ghost use Rattle.bound_cert.specs.Laws.{IsShort};

use crate::bytes::refusal;
use crate::check_fault::CheckFault;
use crate::checker::Checker;
use bound_cert::{CertFault, FeedStop, MAX_LINE, line_of};
use service_model::cert_rules::LONG_LINE;
use service_model::{
    Cert, Head, Item, Network, NoMemory, Node, Split, Table, TakeStop, Taker, Verdict,
};
use std::alloc::Global;
use std::marker::Model;

/// Takes the lines of a certificate, up to the first on which a rule fails.
#[derive(Drop)]
pub(crate) struct Walk<'a> {
    alloc: Global,
    checker: Checker<'a>,
    lines: u64,
}

impl<'a> Model for Walk<'a> {
    ghost use Rattle.cert_check.specs.Walking.{Walking};

    ghost Value = { Walking };

    ghost view = { λ w. record { checking = w.checker; lines = w.lines } };
}

fn is_short(alloc: Global, item: &Item) -> Result<bool, NoMemory>
    ensures { IfOk result (λ short. IsTrue short ↔ IsShort item.now) }
{
    let line = line_of(alloc, item)?;
    Ok(line.len() <= MAX_LINE + 1)
}

// The tables from one number up to another, none where that comes first.
fn tables_between(tables: &[Table], from: usize, to: usize) -> &[Table]
    ensures { result.now ≡ drop from (take to tables.now) }
{
    let front = &tables[..to.min(tables.len())];
    &front[from.min(front.len())..]
}

// How many splits come among so many nodes: one after every other node, from the first on.
fn splits_among(nodes: usize) -> usize
    ensures { result ≡ (nodes + 1) / 2 }
{
    nodes / 2 + nodes % 2
}

// What is left behind the first so many.
fn left<T>(items: &[T], from: usize) -> &[T]
    ensures { result.now ≡ drop from items.now }
{
    &items[from.min(items.len())..]
}

// The split that comes after a node.
fn split_behind(splits: &[Split], node: usize) -> &[Split]
    ensures { result.now ≡ split_after splits.now node }
{
    if node % 2 == 0 && node / 2 < splits.len() {
        &splits[node / 2..node / 2 + 1]
    } else {
        &[]
    }
}

impl<'a> Walk<'a> {
    ghost use Rattle.cert_check.specs.Checking.{new_checking};
    ghost use Rattle.cert_check.specs.Walking.{Walks};

    pub(crate) fn new(alloc: Global, network: &'a Network) -> Result<Walk<'a>, NoMemory>
        ensures { IfOk result (λ walk. walk ≡ record { checking = new_checking network.now; lines = 0 }) }
    {
        let checker = Checker::new(alloc, network)?;
        Ok(Walk {
            alloc,
            checker,
            lines: 0,
        })
    }

    pub(crate) fn into_checker(self) -> Checker<'a>
        ensures { result ≡ self.entry.checking }
    {
        self.checker
    }

    // More lines than can be counted do not fit into memory.
    fn item(&mut self, item: &Item) -> Result<(), CheckFault>
        ensures { Walks self.old self.new (item.now ∷ []) result }
    {
        let Some(line) = self.lines.checked_add(1) else {
            return Err(CheckFault::NoMemory);
        };
        if !is_short(self.alloc, item)? {
            return Err(CheckFault::Fault(CertFault {
                line,
                rule: LONG_LINE,
            }));
        }
        match self.checker.take(&mut (), item) {
            Ok(()) => {
                self.lines = line;
                Ok(())
            }
            Err(TakeStop::Stopped) => Err(refusal(FeedStop::Stopped(line), self.checker.fault())),
            Err(TakeStop::NoMemory) => Err(CheckFault::NoMemory),
        }
    }

    fn table(&mut self, table: &Table) -> Result<(), CheckFault>
        ensures { Walks self.old self.new (TableItem table.now ∷ []) result }
    {
        let item = Item::Table(table.copy(self.alloc)?);
        self.item(&item)
    }

    fn tables(&mut self, tables: &[Table]) -> Result<(), CheckFault>
        ensures { Walks self.old self.new (map TableItem tables.now) result }
    {
        'tables: for table in tables {
            if let Err(fault) = self.table(table) {
                return Err(fault);
            }
        }
        Ok(())
    }

    fn split(&mut self, split: Split) -> Result<(), CheckFault>
        ensures { Walks self.old self.new (SplitItem split ∷ []) result }
    {
        self.item(&Item::Split(split))
    }

    fn splits(&mut self, splits: &[Split]) -> Result<(), CheckFault>
        ensures { Walks self.old self.new (map SplitItem splits.now) result }
    {
        'splits: for split in splits {
            if let Err(fault) = self.split(*split) {
                return Err(fault);
            }
        }
        Ok(())
    }

    fn node(&mut self, node: &Node) -> Result<(), CheckFault>
        ensures { Walks self.old self.new (NodeItem node.now ∷ []) result }
    {
        let item = Item::Node(node.copy(self.alloc)?);
        self.item(&item)
    }

    // A node behind the tables that come before it, and the split that comes after it.
    fn node_between(
        &mut self,
        tables: &[Table],
        node: &Node,
        splits: &[Split],
    ) -> Result<(), CheckFault>
        ensures { Walks self.old self.new (map TableItem tables.now ++ NodeItem node.now ∷ map SplitItem splits.now) result }
    {
        if let Err(fault) = self.tables(tables) {
            return Err(fault);
        }
        if let Err(fault) = self.node(node) {
            return Err(fault);
        }
        self.splits(splits)
    }

    fn nodes(&mut self, cert: &Cert) -> Result<(), CheckFault>
        ensures { Walks self.old self.new (items_from cert.now 0 0 cert.now.nodes) result }
    {
        let tables = cert.tables.as_slice();
        let splits = cert.splits.as_slice();
        let nodes = cert.nodes.as_slice();
        let mut came = 0;
        'nodes: for (k, node) in nodes.iter().enumerate() {
            let seen = node.seen as usize;
            let new_tables = tables_between(tables, came, seen);
            if let Err(fault) = self.node_between(new_tables, node, split_behind(splits, k)) {
                return Err(fault);
            }
            came = came.max(seen);
        }
        self.rest(left(tables, came), left(splits, splits_among(nodes.len())))
    }

    // The tables and splits that are left behind the last node.
    fn rest(&mut self, tables: &[Table], splits: &[Split]) -> Result<(), CheckFault>
        ensures { Walks self.old self.new (map TableItem tables.now ++ map SplitItem splits.now) result }
    {
        if let Err(fault) = self.tables(tables) {
            return Err(fault);
        }
        self.splits(splits)
    }

    fn head(&mut self, head: Head) -> Result<(), CheckFault>
        ensures { Walks self.old self.new (HeadItem head ∷ []) result }
    {
        self.item(&Item::Head(head))
    }

    fn end(&mut self, verdict: &Verdict) -> Result<(), CheckFault>
        ensures { Walks self.old self.new (EndItem verdict.now ∷ []) result }
    {
        let item = Item::End(verdict.copy(self.alloc)?);
        self.item(&item)
    }

    /// All lines of a certificate.
    pub(crate) fn cert(&mut self, cert: &Cert) -> Result<(), CheckFault>
        ensures { Walks self.old self.new (items_of cert.now) result }
    {
        if let Err(fault) = self.head(cert.head) {
            return Err(fault);
        }
        if let Err(fault) = self.nodes(cert) {
            return Err(fault);
        }
        self.end(&cert.verdict)
    }
}
