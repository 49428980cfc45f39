// What a trial network may be made of, beside the limits of the model, and the ranges of its numbers.

/// The greatest seed.
pub const MAX_SEED: u64 = 1_000_000_000_000_000_000;

/// The most pairs of stages that are drawn beside the tree.
pub const MAX_EXTRA: u32 = 4_000;

/// How many ranks there are.
pub const RANKS: u32 = 1_000;

/// The longest lead time, in periods.
pub const MOST_LEAD: u16 = 10;

/// The greatest factor of a bound.
pub const MOST_FACTOR: u32 = 100;

/// The greatest unit cost, in currency units.
pub const MOST_UNIT: u32 = 50;
