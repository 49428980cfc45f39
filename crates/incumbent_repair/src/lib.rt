//! The solver's repairs of relaxed plans, and the best plan that they find.
#![tactic(auto)]

mod candidates;
mod found;
mod inputs;
mod raise_lower;
mod shifts;
#[cfg(test)]
mod tests;

pub use found::{best_repair, keep_better};
pub use raise_lower::{lower, raise};
pub use shifts::shift;
