//! The checker's rules on tables: whether a table keeps its shape and the local inequalities.
#![tactic(auto)]

mod columns;
mod fault;
mod leasts;
mod local;
mod shape;
mod sums;
#[cfg(test)]
mod tests;

pub use fault::table_fault;
pub use local::{Scratch, local_holds};
pub use shape::most_floor;
