//! The certificate of a search, how many nodes it may have, and which budgets are never spent.
#![tactic(auto)]

mod laws;

pub use laws::{enough_law, nodes_law, tree_enough_law};
