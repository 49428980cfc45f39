//! Where a network is entangled: its bridges, and the clusters of stages that they part.
#![tactic(auto)]

mod heads;
mod numbers;
mod places;
mod split;
#[cfg(test)]
mod tests;
#[cfg(test)]
mod tests_all;
mod tops;

pub use split::{Split, bridges, clusters, split_of};
