//! The checker's rules on splits: which leaf is split next, whether its nodes earned the split, and the halves of its range.
#![tactic(auto)]

mod arcs;
mod faults;
mod halves;
mod leaves;
mod links;
mod relaxed;
#[cfg(test)]
mod tests;

pub use faults::{Next, split_fault};
pub use halves::{Halves, halves_of};
pub use leaves::{Leaf, Leaves};
