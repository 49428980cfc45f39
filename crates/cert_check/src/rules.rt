// A network, and what the rules on items are decided by.
ghost use Rattle.std.specs.Prelude.{◌≡◌, ◌<◌, ◌+◌, ◌*◌, Option, IfOk, IfSome, length};
ghost use Rattle.service_model.specs.declared.cert.Item.TheVariants.{Node as NodeItem, Split as SplitItem, End as EndItem};
ghost use Rattle.service_model.specs.declared.plan.Plan.{Plan};
ghost use Rattle.service_model.specs.Plans.{Feasible};
ghost use Rattle.service_model.specs.Networks.{IsNetwork};
ghost use Rattle.service_model.specs.CertNumbers.{TableInRange};
ghost use Rattle.service_model.specs.Held.{relaxed_at, cuts_of, range_of};
ghost use Rattle.service_model.specs.Repairs.{FoundOf, better};
ghost use Rattle.service_model.specs.CertRules.{TableRule, NodeRule, SplitRule, EndRule, Keeps, IsFirstOf};
ghost use Rattle.split_rules.specs.Halves.{AreHalves};
ghost use Rattle.split_rules.specs.Leaves.{AreNodesComplete, IsNextOf};
ghost use Rattle.cert_check.specs.Faults.{IsPlaced, IsFaultOf};
ghost use Rattle.cert_check.specs.Frames.{HeadRule};
ghost use Rattle.cert_check.specs.Arrivals.{IsRangeOf};
ghost use Rattle.cert_check.specs.Keeping.{IsKept};

use crate::came::Came;
use end_rules::{end_fault, found_of, keep_better};
use node_rules::node_fault;
use service_model::cert_rules::NETWORK;
use service_model::{
    Head, Item, List, Network, NoMemory, Node, Plan, Range, Split, Table, Verdict,
    topological_order,
};
use split_rules::{Halves, Leaf, Next, halves_of, split_fault};
use std::alloc::Global;
use std::marker::Model;
use table_rules::{Scratch, most_floor, table_fault};

/// A network, and what the rules on items are decided by.
#[derive(Drop)]
pub(crate) struct Rules<'a> {
    network: &'a Network,
    order: List<u32>,
    whole: Range,
    most_floor: u16,
    scratch: Scratch,
}

impl<'a> Model for Rules<'a> {
    ghost use Rattle.service_model.specs.Net.{Net};
    ghost use Rattle.cert_check.specs.Keeping.{AreRules};

    ghost Value = { Net };

    ghost view = { λ r. r.network.now };

    ghost invariant = { λ r. AreRules r.network.now r.order r.whole r.most_floor r.scratch };
}

impl<'a> Rules<'a> {
    pub(crate) fn new(alloc: Global, network: &'a Network) -> Result<Rules<'a>, NoMemory>
        ensures value { IfOk result (λ rules. rules ≡ network.now) }
        ensures valid { IsNetwork network.now }
    {
        let scratch = Scratch::new(alloc, network.horizon())?;
        let order = topological_order(alloc, network)?;
        let whole = network.whole(alloc)?;
        Ok(Rules {
            network,
            order,
            whole,
            most_floor: most_floor(network),
            scratch,
        })
    }

    fn head_fault(&self, head: &Head) -> Option<u8>
        ensures { IsFirstOf (HeadRule self.now head.now) result }
    {
        let network = self.network;
        if head.horizon == network.horizon() && head.stages as usize == network.stages().len() {
            None
        } else {
            Some(NETWORK)
        }
    }

    fn table_fault(&mut self, came: &Came, table: &Table) -> Option<u8>
        requires kept { (found : Option Plan) × IsKept self.old came.now found }
        requires numbers { TableInRange table.now }
        ensures first { IsFirstOf (TableRule self.old came.now.held.tables table.now) result }
        ensures same { self.new ≡ self.old }
    {
        table_fault(
            self.network,
            self.most_floor,
            table,
            came.tables(),
            &mut self.scratch,
        )
    }

    // The range of a node that came, or that comes behind the splits.
    fn range<'b>(&'b self, came: &'b Came, node: usize) -> &'b Range
        requires kept { (found : Option Plan) × IsKept self.now came.now found }
        requires there { node < 2 * length came.now.held.splits + 1 }
        ensures { IsRangeOf self.now (cuts_of self.now came.now.held) node result.now }
    {
        if node == 0 {
            return &self.whole;
        }
        let halves = came.halves((node - 1) / 2);
        if node % 2 == 1 {
            &halves.left
        } else {
            &halves.right
        }
    }

    fn node_fault(&self, alloc: Global, came: &Came, node: &Node) -> Result<Option<u8>, NoMemory>
        requires kept { (found : Option Plan) × IsKept self.now came.now found }
        requires placed { IsPlaced self.now came.now.held (NodeItem node.now) }
        ensures { IfOk result (IsFirstOf (NodeRule self.now came.now.held node.now)) }
    {
        node_fault(
            alloc,
            self.network,
            self.range(came, came.node_count()),
            came.budget(),
            came.node_count(),
            came.tables(),
            node,
        )
    }

    // The leaf that is split next. There is one where no node is missing.
    fn next_leaf(&self, came: &Came) -> Leaf
        requires kept { (found : Option Plan) × IsKept self.now came.now found }
        requires complete { AreNodesComplete came.now.held }
        ensures { IsNextOf self.now came.now.held result }
    {
        match came.leaves().next() {
            Some(leaf) => leaf,
            None => unreachable!(),
        }
    }

    fn split_fault(
        &self,
        alloc: Global,
        came: &Came,
        found: &Option<Plan>,
        split: Split,
    ) -> Result<Option<u8>, NoMemory>
        requires kept { IsKept self.now came.now found.now }
        requires placed { IsPlaced self.now came.now.held (SplitItem split) }
        ensures { IfOk result (IsFirstOf (SplitRule self.now came.now.held split)) }
    {
        let leaf = self.next_leaf(came);
        let next = Next {
            leaf,
            node: came.node(leaf.node as usize),
            range: self.range(came, leaf.node as usize),
        };
        split_fault(alloc, self.network, next, came.tables(), found, split)
    }

    fn end_fault(&self, came: &Came, found: &Option<Plan>, verdict: &Verdict) -> Option<u8>
        requires kept { IsKept self.now came.now found.now }
        requires placed { IsPlaced self.now came.now.held (EndItem verdict.now) }
        ensures { IsFirstOf (EndRule self.now came.now.held verdict.now) result }
    {
        end_fault(
            self.network,
            came.budget(),
            came.node_count(),
            self.next_leaf(came).bound,
            found,
            verdict,
        )
    }

    // The first rule behind PLACE that fails on the item.
    #[tactic(auto, using(crate::proofs::PlaceFacts::table_numbers))]
    fn kind_fault(
        &mut self,
        alloc: Global,
        came: &Came,
        found: &Option<Plan>,
        item: &Item,
    ) -> Result<Option<u8>, NoMemory>
        requires kept { IsKept self.old came.now found.now }
        requires placed { IsPlaced self.old came.now.held item.now }
        ensures first { IfOk result (IsFaultOf self.old came.now.held item.now) }
        ensures same { self.new ≡ self.old }
    {
        match item {
            Item::Head(head) => Ok(self.head_fault(head)),
            Item::Table(table) => Ok(self.table_fault(came, table)),
            Item::Node(node) => self.node_fault(alloc, came, node),
            Item::Split(split) => self.split_fault(alloc, came, found, *split),
            Item::End(verdict) => Ok(self.end_fault(came, found, verdict)),
        }
    }

    /// The first rule that fails on the item behind those that came, none where all hold.
    pub(crate) fn item_fault(
        &mut self,
        alloc: Global,
        came: &Came,
        found: &Option<Plan>,
        item: &Item,
    ) -> Result<Option<u8>, NoMemory>
        requires kept { IsKept self.old came.now found.now }
        ensures first { IfOk result (IsFaultOf self.old came.now.held item.now) }
        ensures same { self.new ≡ self.old }
    {
        if let Some(rule) = came.frame_fault(item) {
            return Ok(Some(rule));
        }
        self.kind_fault(alloc, came, found, item)
    }

    /// The halves of the range of a split's node.
    pub(crate) fn halves(
        &self,
        alloc: Global,
        came: &Came,
        split: Split,
    ) -> Result<Halves, NoMemory>
        requires kept { (found : Option Plan) × IsKept self.now came.now found }
        requires keeps { Keeps self.now came.now.held (SplitItem split) }
        ensures { IfOk result (AreHalves self.now (range_of self.now came.now.held split.node) (relaxed_at came.now.held.nodes split.node) split) }
    {
        let range = self.range(came, split.node as usize);
        match &came.node(split.node as usize).relaxed {
            Some(plan) => halves_of(alloc, self.network, range, plan, split),
            None => unreachable!(),
        }
    }

    /// The plan that a node's relaxed plan finds.
    pub(crate) fn found_of(
        &self,
        alloc: Global,
        relaxed: &Option<Plan>,
    ) -> Result<Option<Plan>, NoMemory>
        ensures { IfOk result (FoundOf self.now relaxed.now) }
    {
        found_of(alloc, self.network, &self.order, relaxed)
    }

    /// Keeps the better one of the plan found so far and that of a node.
    pub(crate) fn keep_better(&self, found: &mut Option<Plan>, later: Option<Plan>)
        requires found { IfSome found.old (Feasible self.now) }
        requires later { IfSome later (Feasible self.now) }
        ensures { found.new ≡ better self.now found.old later }
    {
        keep_better(self.network, found, later);
    }
}
