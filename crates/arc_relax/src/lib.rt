//! A range over a forest of the stages: the least cost of its plans, with the arcs left out that the forest drops.
#![tactic(auto)]

mod kinds;
mod laws;
mod node;
mod plans;
mod relaxed;
mod roots;
mod tables;
#[cfg(test)]
mod tests;

pub use laws::{empty_law, feasible_law, step_law, tree_law};
pub use relaxed::{Relaxed, relax};
