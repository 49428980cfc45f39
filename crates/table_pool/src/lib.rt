//! Tables that are shared: each is filled once, and found again where it is wanted again.
#![tactic(auto)]

mod pool;
mod signature;
mod signatures;
#[cfg(test)]
mod tests;

pub use pool::Pool;
