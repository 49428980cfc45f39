//! Trial networks: large valid networks, each made of a number.
#![tactic(auto)]

mod arcs;
mod draws;
mod joins;
mod limits;
mod stages;
#[cfg(test)]
mod tests;
mod trial;

pub use limits::{MAX_EXTRA, MAX_SEED};
pub use trial::make;
