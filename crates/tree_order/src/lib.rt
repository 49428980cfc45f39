//! The forest of a network: which stages stand next to which in a walk over all of them, and which arcs it leaves out.
#![tactic(auto)]

mod forest;
mod links;
mod picks;
#[cfg(test)]
mod tests;
mod walk;

pub use forest::{Forest, forest_of};
