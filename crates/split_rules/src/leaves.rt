// The leaves of a certificate's nodes.
ghost use Rattle.std.specs.Prelude.{◌≡◌, ◌≢◌, ◌⊎◌, ◌↔◌, All, Contains, [], OnOk, OnErr, IfSome, IfNone};

use service_model::NoMemory;
use std::alloc::Global;
use std::collections::BTreeSet;
use std::marker::Model;

/// A node that no split names. Leaves are in order by their bounds, and among equal bounds by their numbers.
#[derive(Clone, Copy, Debug, PartialEq, Eq, PartialOrd, Ord, Drop)]
pub struct Leaf {
    /// What each plan of the node's range costs at least.
    pub bound: u64,
    /// The number of the node.
    pub node: u32,
}

/// The leaves, which contracts see as the list of them.
#[derive(Drop)]
pub struct Leaves {
    leaves: BTreeSet<Leaf>,
}

impl Model for Leaves {
    ghost use Rattle.std.specs.Prelude.{List};
    ghost use Rattle.split_rules.specs.declared.leaves.Leaf.{Leaf};

    ghost Value = { List Leaf };

    ghost view = { λ l. l.leaves.keys };
}

impl Leaves {
    ghost use Rattle.service_model.specs.Net.{Net};
    ghost use Rattle.service_model.specs.Held.{Held};
    ghost use Rattle.split_rules.specs.declared.leaves.Leaf.{Leaf};
    ghost use Rattle.split_rules.specs.Leaves.{IsBefore, AreLeaves, AreNodesComplete, IsNextOf};

    /// No leaves.
    pub fn new(alloc: Global) -> Leaves
        ensures { result ≡ [] }
    {
        Leaves {
            leaves: BTreeSet::new(alloc),
        }
    }

    /// Puts a leaf in.
    pub fn insert(&mut self, leaf: Leaf) -> Result<(), NoMemory>
        ensures ok { OnOk result ((q : Leaf) → Contains self.new q ↔ (Contains self.old q ⊎ (q ≡ leaf))) }
        ensures err { OnErr result (self.new ≡ self.old) }
    {
        self.leaves.insert(leaf)?;
        Ok(())
    }

    /// Takes a leaf out.
    pub fn remove(&mut self, leaf: Leaf)
        ensures { (q : Leaf) → Contains self.new q ↔ (Contains self.old q × (q ≢ leaf)) }
    {
        self.leaves.remove(&leaf);
    }

    /// The leaf that is split next: that of least bound, the lowest number among equals.
    pub fn next(&self) -> Option<Leaf>
        ensures next { (n : Net) → (h : Held) → AreLeaves h self.now → AreNodesComplete h → IfSome result (IsNextOf n h) }
        ensures none { IfNone result (self.now ≡ []) }
    {
        self.first()
    }

    // The first of the leaves in their order.
    fn first(&self) -> Option<Leaf>
        ensures there { IfSome result (Contains self.now) }
        ensures least { IfSome result (λ leaf. All (λ q. ¬ IsBefore q leaf) self.now) }
        ensures none { IfNone result (self.now ≡ []) }
    {
        self.leaves.first().copied()
    }
}
