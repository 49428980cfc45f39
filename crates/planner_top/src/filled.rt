//! How many tables a run may fill.

/// The most tables that one answer fills, so that a count of them keeps its room.
pub const MOST_FILLED: u64 = 40_000_000;

/// The most tables that a session fills: so many for each row of a script that may be read.
pub const MOST_IN_SESSION: u64 = 671_088_680_000_000;
