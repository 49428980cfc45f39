//! The limits of the numbers that a trial is made from.

/// The greatest seed.
pub const MAX_SEED: u64 = 1_000_000_000_000_000_000;

/// The most pairs of stages that are drawn beside the arcs that hold a trial network together.
pub const MAX_EXTRA: u32 = 4_000;
