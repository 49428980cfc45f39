// Equal copies of what certificates are made of.
ghost use Rattle.std.specs.Prelude.{◌≡◌, IfOk};

use crate::{Item, List, NoMemory, Node, Plan, Table, Verdict};
use std::alloc::Global;

fn copy_plan(alloc: Global, plan: &Option<Plan>) -> Result<Option<Plan>, NoMemory>
    ensures { IfOk result (λ copied. copied ≡ plan.now) }
{
    match plan {
        None => Ok(None),
        Some(plan) => Ok(Some(plan.copy(alloc)?)),
    }
}

impl Table {
    /// An equal table.
    pub fn copy(&self, alloc: Global) -> Result<Table, NoMemory>
        ensures { IfOk result (λ table. table ≡ self.now) }
    {
        let children = List::copied(alloc, self.children.as_slice())?;
        let values = List::copied(alloc, self.values.as_slice())?;
        Ok(Table {
            stage: self.stage,
            kind: self.kind,
            least: self.least,
            most: self.most,
            floor: self.floor,
            children,
            values,
        })
    }
}

impl Node {
    /// An equal node.
    pub fn copy(&self, alloc: Global) -> Result<Node, NoMemory>
        ensures { IfOk result (λ node. node ≡ self.now) }
    {
        let roots = List::copied(alloc, self.roots.as_slice())?;
        let relaxed = copy_plan(alloc, &self.relaxed)?;
        Ok(Node {
            seen: self.seen,
            roots,
            relaxed,
        })
    }
}

impl Verdict {
    /// An equal verdict.
    pub fn copy(&self, alloc: Global) -> Result<Verdict, NoMemory>
        ensures { IfOk result (λ verdict. verdict ≡ self.now) }
    {
        let plan = copy_plan(alloc, &self.plan)?;
        Ok(Verdict {
            outcome: self.outcome,
            bound: self.bound,
            plan,
        })
    }
}

impl Item {
    /// An equal item.
    pub fn copy(&self, alloc: Global) -> Result<Item, NoMemory>
        ensures { IfOk result (λ item. item ≡ self.now) }
    {
        match self {
            Item::Head(head) => Ok(Item::Head(*head)),
            Item::Table(table) => Ok(Item::Table(table.copy(alloc)?)),
            Item::Node(node) => Ok(Item::Node(node.copy(alloc)?)),
            Item::Split(split) => Ok(Item::Split(*split)),
            Item::End(verdict) => Ok(Item::End(verdict.copy(alloc)?)),
        }
    }
}
