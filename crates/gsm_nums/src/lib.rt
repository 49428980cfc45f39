//! Whole numbers: read from the bytes of a field, and square roots rounded up.
#![tactic(auto)]

mod root;
#[cfg(test)]
mod tests;
mod whole;

pub use root::root_up;
pub use whole::{NumFault, read_whole};
