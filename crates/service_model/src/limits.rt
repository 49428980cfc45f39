// The limits of the model, each in one place. Proofs leave room for a horizon of 1,000 and 2,000 stages.

/// The cost of a time that is not allowed; more than any feasible plan costs.
pub const INF: u64 = 4_611_686_018_427_387_904;

/// The longest horizon, in periods.
pub const MAX_HORIZON: u16 = 400;

/// The most stages of a network.
pub const MAX_STAGES: usize = 1_000;

/// The most arcs of a network.
pub const MAX_ARCS: usize = 5_000;

/// The longest lead time and transit time, in periods.
pub const MAX_TIME: u16 = 1_000;

/// How many entries a cost list may have beyond the horizon.
pub const MAX_BEYOND: usize = 1_001;

/// What the greatest allowed entries of all stages may sum up to, in currency units.
pub const MAX_PLAN_COST: u64 = 4_000_000_000_000_000_000;
