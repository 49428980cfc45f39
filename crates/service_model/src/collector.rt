// A taker that keeps what it takes.
ghost use Rattle.std.specs.Prelude.{◌≡◌, ◌++◌, ◌∷◌, [], OnOk, OnErr};

use crate::parts::Parts;
use crate::{Cert, Item, NoMemory, TakeStop, Taker};
use std::alloc::Global;
use std::marker::Model;

/// Keeps the items that it takes, in their order.
#[derive(Drop)]
pub struct Collector {
    alloc: Global,
    items: Vec<Item>,
    // Nothing but room for the parts of a certificate of the items.
    parts: Parts,
}

impl Model for Collector {
    ghost use Rattle.std.specs.Prelude.{◌≡◌, List};
    ghost use Rattle.service_model.specs.declared.cert.Item.{Item};
    ghost use Rattle.service_model.specs.Parts.{gathered_by, none_gathered, HasRoom};

    ghost Value = { List Item };

    ghost view = { λ c. c.items.items };

    ghost invariant = { λ c. (gathered_by c.parts ≡ none_gathered) × HasRoom c.parts c.items.items };
}

impl Collector {
    ghost use Rattle.service_model.specs.Items as listed;

    /// A collector that has taken nothing.
    pub fn new(alloc: Global) -> Collector
        ensures { result ≡ [] }
    {
        Collector {
            alloc,
            items: Vec::new(alloc),
            parts: Parts::new(alloc),
        }
    }

    fn keep(&mut self, item: Item) -> Result<(), NoMemory>
        ensures ok { OnOk result (self.new ≡ self.old ++ item ∷ []) }
        ensures err { OnErr result (self.new ≡ self.old) }
    {
        self.parts.make_room(&item, self.items.len() + 1)?;
        self.items.push(item)?;
        Ok(())
    }

    /// The certificate of the items: none where they are not one head, tables, nodes and splits, and one verdict.
    pub fn cert(self) -> Option<Cert>
        ensures { result ≡ listed.cert_of self }
    {
        self.parts.cert_of(self.items)
    }
}

impl Taker<()> for Collector {
    ghost stands_for = { λ taker world items. taker ≡ items };

    ghost refuses = { λ taker world item. Unit {0} };

    ghost keeps = { λ earlier before later after. Unit {0} };

    ghost stops = { λ taker. 0 };

    ghost keeps_itself = { λ taker world. tt };

    ghost keeps_on = { λ a u b v c w first second. tt };

    fn take(&mut self, _world: &mut (), item: &Item) -> Result<(), TakeStop> {
        let copied = item.copy(self.alloc)?;
        self.keep(copied)?;
        Ok(())
    }
}
