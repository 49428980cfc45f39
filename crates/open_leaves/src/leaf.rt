// A leaf of a search.

/// A node that was not split. Leaves are in order by their bounds, and among equal bounds by their numbers.
#[derive(Clone, Copy, Debug, PartialEq, Eq, PartialOrd, Ord, Drop)]
pub struct Leaf {
    /// What each plan of the node's range costs at least.
    pub bound: u64,
    /// The number of the node.
    pub node: u32,
}
