//! The explanation of certificates as bytes.
#![tactic(auto)]

mod bytes;
mod collect;
#[cfg(test)]
mod tests;

pub use bytes::explained;
