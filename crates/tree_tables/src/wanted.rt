// What a table is to be of, which contracts see as it is.
use service_model::Kind;
use smallvec::SmallVec;

/// The numbers of a table's children.
pub type ChildList = SmallVec<u32, 4>;

/// A table that is to be filled: all of it but its values.
#[derive(Drop)]
pub struct Wanted {
    pub stage: u32,
    pub kind: Kind,
    /// The least outbound time of the table's interval.
    pub least: u16,
    /// The greatest outbound time of the table's interval.
    pub most: u16,
    /// The least inbound time; the horizon and 1 where there is none.
    pub floor: u16,
    /// The numbers of the tables below this one, among those that are made.
    pub children: ChildList,
}
