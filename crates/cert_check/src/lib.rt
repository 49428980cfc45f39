//! The checker of certificates, which shares nothing with the solver.
#![tactic(auto)]

mod bytes;
mod came;
mod check_fault;
mod checker;
mod keep;
mod laws;
mod numbers;
mod rules;
#[cfg(test)]
mod tests;
mod walk;
mod written;

pub use bytes::check_bytes;
pub use check_fault::CheckFault;
pub use checker::Checker;
pub use laws::{not_both_law, refusal_one_law, verdict_one_law, written_law};
pub use table_rules::{Scratch, local_holds};
pub use written::check;
