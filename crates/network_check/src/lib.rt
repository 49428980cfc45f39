//! From the files of a network, or their records, to the network, or the first rule that fails.
#![tactic(auto)]

mod budget;
mod checked;
mod network;
mod records;
#[cfg(test)]
mod tests;
#[cfg(test)]
mod tests_budget;

pub use budget::{DEFAULT_BUDGET, MOST_VALUES, budget_of};
pub use checked::Checked;
pub use network::{check, check_records, topological};
