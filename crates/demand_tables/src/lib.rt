//! The excess demand of each stage: from tables, from normal bounds, and from the customers' demands.
#![tactic(auto)]

mod bounds;
mod demand;
mod joined;
mod lookups;
mod normal;
#[cfg(test)]
mod tests;

pub use demand::tables_of;
