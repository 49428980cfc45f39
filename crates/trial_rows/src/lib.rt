//! The files of a trial network, and the laws that say what such files are.
#![tactic(auto)]

mod drawn;
mod fields;
mod files;
mod laws;

pub use drawn::{TrialArc, TrialStage};
pub use files::files_of;
pub use laws::{few_rows, passes, zero_plan};

#[cfg(test)]
mod tests;
