//! The leaves of a search that may still be split, least bound first.
#![tactic(auto)]

mod leaf;
mod leaves;

pub use leaf::Leaf;
pub use leaves::Leaves;

#[cfg(test)]
mod tests;
