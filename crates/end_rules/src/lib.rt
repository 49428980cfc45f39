//! The checker's repairs of relaxed plans, and its rules on verdicts.
#![tactic(auto)]

mod candidates;
mod found;
mod inputs;
mod raise_lower;
mod shift;
#[cfg(test)]
mod tests;
mod verdicts;

pub use found::{found_of, keep_better};
pub use verdicts::end_fault;
