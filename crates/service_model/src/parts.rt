// The parts of a certificate, gathered without memory where there is room for them.
ghost use Rattle.std.specs.Prelude.{◌≡◌, ◌<◌, ◌++◌, ◌∷◌, [], List, length, OnOk};
ghost use Rattle.service_model.specs.declared.cert.Item.{Item};
ghost use Rattle.service_model.specs.Items as listed;
ghost use Rattle.service_model.specs.Parts.{gathered_by, none_gathered, may_come, with_item, cert_by, HasRoom, HasRoomOf};

use crate::{Cert, Head, Item, List, NoMemory, Node, Split, Table, Verdict};
use std::alloc::{AllocError, Global};

/// What came of a certificate.
#[derive(Drop)]
pub(crate) struct Parts {
    head: Option<Head>,
    tables: Vec<Table>,
    nodes: Vec<Node>,
    splits: Vec<Split>,
    verdict: Option<Verdict>,
    in_order: bool,
}

fn is_head(item: &Item) -> bool
    ensures { result ≡ listed.is_head item.now }
{
    match item {
        Item::Head(_) => true,
        _ => false,
    }
}

impl Parts {
    pub(crate) fn new(alloc: Global) -> Parts
        ensures gathered { gathered_by result ≡ none_gathered }
        ensures room { HasRoom result [] }
    {
        Parts {
            head: None,
            tables: Vec::new(alloc),
            nodes: Vec::new(alloc),
            splits: Vec::new(alloc),
            verdict: None,
            in_order: true,
        }
    }

    // Makes room for so many items of an item's kind.
    pub(crate) fn make_room(&mut self, item: &Item, count: usize) -> Result<(), AllocError>
        ensures gathered { gathered_by self.new ≡ gathered_by self.old }
        ensures kept { (items : List Item) → HasRoom self.old items → HasRoom self.new items }
        ensures made { OnOk result (HasRoomOf self.new item.now count) }
    {
        match item {
            Item::Table(_) => self.tables.reserve(count),
            Item::Node(_) => self.nodes.reserve(count),
            Item::Split(_) => self.splits.reserve(count),
            _ => Ok(()),
        }
    }

    fn may_come(&self, item: &Item) -> bool
        ensures { result ≡ may_come (gathered_by self.now) item.now }
    {
        self.verdict.is_none()
            && if self.head.is_none() {
                is_head(item)
            } else {
                !is_head(item)
            }
    }

    fn add(&mut self, item: Item)
        requires { HasRoom self.old (item ∷ []) }
        ensures gathered { gathered_by self.new ≡ with_item (gathered_by self.old) item }
        ensures room { (items : List Item) → HasRoom self.old (item ∷ items) → HasRoom self.new items }
    {
        self.in_order = self.in_order && self.may_come(&item);
        // A push finds room, and so does not fail.
        match item {
            Item::Head(head) => self.head = Some(head),
            Item::Table(table) => {
                let _ = self.tables.push(table);
            }
            Item::Node(node) => {
                let _ = self.nodes.push(node);
            }
            Item::Split(split) => {
                let _ = self.splits.push(split);
            }
            Item::End(verdict) => self.verdict = Some(verdict),
        }
    }

    fn cert(self) -> Option<Cert>
        ensures { result ≡ cert_by (gathered_by self) }
    {
        if !self.in_order {
            return None;
        }
        Some(Cert {
            head: self.head?,
            tables: List::from_vec(self.tables),
            nodes: List::from_vec(self.nodes),
            splits: List::from_vec(self.splits),
            verdict: self.verdict?,
        })
    }

    // The certificate of items for which there is room.
    pub(crate) fn cert_of(self, items: Vec<Item>) -> Option<Cert>
        requires gathered { gathered_by self ≡ none_gathered }
        requires room { HasRoom self items.items }
        ensures { result ≡ listed.cert_of items.items }
    {
        let mut parts = self;
        'items: for item in items {
            parts.add(item);
        }
        parts.cert()
    }
}
