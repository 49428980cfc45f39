//! The search over ranges, whose answer is a certificate.
#![tactic(auto)]

mod branch;
mod cert;
mod first;
mod halves;
mod progress;
mod split;

pub use branch::search;

#[cfg(test)]
mod tests;
#[cfg(test)]
mod tests_small;
