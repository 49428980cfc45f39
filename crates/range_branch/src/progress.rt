// A search so far.
use open_leaves::Leaves;
use service_model::{List, Network, Node, Plan, Range, Split};
use tree_order::Forest;

/// What a search is given.
#[derive(Clone, Copy, Drop)]
pub(crate) struct Given<'a> {
    pub network: &'a Network,
    pub forest: &'a Forest,
    /// The stages, suppliers first.
    pub order: &'a List<u32>,
    /// How many nodes there may be.
    pub budget: u32,
}

/// The nodes and splits that were made, the range of each node, the leaves, and the best plan that repairs found.
#[derive(Drop)]
pub(crate) struct Progress {
    pub nodes: List<Node>,
    pub splits: List<Split>,
    pub ranges: List<Range>,
    pub leaves: Leaves,
    pub found: Option<Plan>,
}
