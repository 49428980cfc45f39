// Tables of least costs, which contracts see as they are.
use crate::List;

/// What the values of a table stand for.
#[derive(Clone, Copy, Debug, PartialEq, Eq)]
pub enum Kind {
    /// The table's parent is a customer: a value for each outbound time of the interval.
    Down,
    /// The table's parent is a supplier: a value for each inbound time from the floor to the horizon.
    Up,
    /// The table has no parent: one value.
    Root,
}

/// The least costs of a stage and of what hangs below it, for some of the stage's times.
#[derive(Drop)]
pub struct Table {
    pub stage: u32,
    pub kind: Kind,
    /// The least outbound time of the table's interval.
    pub least: u16,
    /// The greatest outbound time of the table's interval.
    pub most: u16,
    /// The least inbound time; the horizon and 1 where there is none.
    pub floor: u16,
    /// The numbers of the tables below this one, in the list that it stands in.
    pub children: List<u32>,
    pub values: List<u64>,
}
