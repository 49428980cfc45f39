// Certificates and their items, which contracts see as they are.
use crate::{List, Plan, Table};

/// A range of the search, solved with the dropped arcs left out.
#[derive(Drop)]
pub struct Node {
    /// How many tables come before the node.
    pub seen: u32,
    /// The numbers of the tables of the forest's roots.
    pub roots: List<u32>,
    /// A plan of the range that costs the node's bound, where there is one.
    pub relaxed: Option<Plan>,
}

/// A node's range is cut in two at an arc that its relaxed plan breaks.
#[derive(Clone, Copy, Debug, PartialEq, Eq)]
pub struct Split {
    pub node: u32,
    pub supplier: u32,
    pub customer: u32,
}

/// How a search ended.
#[derive(Clone, Copy, Debug, PartialEq, Eq)]
pub enum Outcome {
    /// No feasible plan costs less than the plan found.
    Optimal,
    /// No plan is feasible.
    Infeasible,
    /// The budget of nodes ended first.
    Spent,
}

/// The answer of a search.
#[derive(Drop)]
pub struct Verdict {
    pub outcome: Outcome,
    /// No feasible plan costs less; `INF` where none is feasible.
    pub bound: u64,
    /// The best plan found, if any was.
    pub plan: Option<Plan>,
}

/// What a certificate is about.
#[derive(Clone, Copy, Debug, PartialEq, Eq)]
pub struct Head {
    /// The network's horizon, in periods.
    pub horizon: u16,
    /// How many stages the network has.
    pub stages: u32,
    /// How many nodes there may be.
    pub budget: u32,
}

/// All that a search shows for its verdict.
#[derive(Drop)]
pub struct Cert {
    pub head: Head,
    pub tables: List<Table>,
    pub nodes: List<Node>,
    pub splits: List<Split>,
    pub verdict: Verdict,
}

/// One entry of a certificate, in the order in which they are written and checked.
#[derive(Drop)]
pub enum Item {
    Head(Head),
    Table(Table),
    Node(Node),
    Split(Split),
    End(Verdict),
}
