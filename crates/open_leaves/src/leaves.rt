// The leaves in the order in which they are split.
ghost use Rattle.std.specs.Prelude.{◌≡◌, ◌⊎◌, ◌↔◌, All, Contains, [], OnOk, OnErr, IfSome, IfNone};
ghost use Rattle.open_leaves.specs.Leaves.{IsBefore, IsWithout};

use crate::Leaf;
use service_model::NoMemory;
use std::alloc::Global;
use std::collections::BTreeSet;
use std::marker::Model;

/// Leaves, which contracts see as the list of them, the least first.
#[derive(Drop)]
pub struct Leaves {
    leaves: BTreeSet<Leaf>,
}

impl Model for Leaves {
    ghost use Rattle.std.specs.Prelude.{List};
    ghost use Rattle.open_leaves.specs.declared.leaf.Leaf.{Leaf};

    ghost Value = { List Leaf };

    ghost view = { λ l. l.leaves.keys };
}

impl Leaves {
    ghost use Rattle.open_leaves.specs.declared.leaf.Leaf.{Leaf};

    /// No leaves.
    pub fn new(alloc: Global) -> Leaves
        ensures { result ≡ [] }
    {
        Leaves {
            leaves: BTreeSet::new(alloc),
        }
    }

    /// Puts a leaf in.
    pub fn insert(&mut self, leaf: Leaf) -> Result<(), NoMemory>
        ensures ok { OnOk result ((q : Leaf) → Contains self.new q ↔ (Contains self.old q ⊎ (q ≡ leaf))) }
        ensures err { OnErr result (self.new ≡ self.old) }
    {
        self.leaves.insert(leaf)?;
        Ok(())
    }

    /// The leaf of least bound, the lowest number among equals.
    pub fn least(&self) -> Option<Leaf>
        ensures there { IfSome result (Contains self.now) }
        ensures least { IfSome result (λ leaf. All (λ q. ¬ IsBefore q leaf) self.now) }
        ensures none { IfNone result (self.now ≡ []) }
    {
        self.leaves.first().copied()
    }

    /// Takes that leaf out.
    pub fn take_least(&mut self) -> Option<Leaf>
        ensures some { IfSome result (λ leaf. IsWithout self.old self.new leaf) }
        ensures least { IfSome result (λ leaf. All (IsBefore leaf) self.new) }
        ensures none { IfNone result (self.old ≡ []) }
    {
        self.leaves.pop_first()
    }
}
