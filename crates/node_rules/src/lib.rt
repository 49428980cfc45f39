//! The checker's rules on nodes, and the bound of a node.
#![tactic(auto)]

mod bound;
mod faults;
mod fits;
mod marks;
mod roots;
mod tables;
#[cfg(test)]
mod tests;
mod walks;

pub use bound::node_bound;
pub use faults::node_fault;
pub use tables::table_in;
pub use walks::walk;
