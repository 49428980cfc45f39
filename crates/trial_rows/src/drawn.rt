// The drawn numbers of a trial network.

/// A stage's drawn numbers.
#[derive(Clone, Copy, Debug, PartialEq, Eq)]
pub struct TrialStage {
    /// Where the stage stands in the order that directs the arcs.
    pub rank: u32,
    /// Its lead time, in periods.
    pub lead: u16,
    /// The factor of its bound: `normal:` with this number.
    pub factor: u32,
    /// What a unit of its stock costs, in currency units.
    pub unit: u32,
}

/// An arc between two stages, by their numbers from 0.
#[derive(Clone, Copy, Debug, PartialEq, Eq)]
pub struct TrialArc {
    pub supplier: u32,
    pub customer: u32,
}
