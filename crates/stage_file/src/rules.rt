//! The numbers of the rules on files, as they are printed behind an `F`.

/// A field is not UTF-8.
pub const NOT_TEXT: u8 = 1;
/// The header's first field is not the file's word.
pub const HEADER: u8 = 2;
/// The number of fields is not allowed.
pub const FIELD_COUNT: u8 = 3;
/// The name is empty or too long.
pub const NAME: u8 = 4;
/// A number field is not digits, or is blank where that is refused.
pub const NUMBER: u8 = 5;
/// A number is out of its column's range.
pub const RANGE: u8 = 6;
/// There are too many records.
pub const TOO_MANY: u8 = 7;
/// The stage file has no record.
pub const NO_STAGES: u8 = 8;
/// An earlier record has the name.
pub const TWICE: u8 = 9;
/// The least outbound time as written is above the greatest as written.
pub const LIMITS: u8 = 10;
/// The supply time or the least outbound time is past the horizon.
pub const PAST_HORIZON: u8 = 11;
/// A table has the name of another kind of bound.
pub const TABLE_NAME: u8 = 12;
/// The supplier is no stage.
pub const SUPPLIER: u8 = 13;
/// The customer is no stage.
pub const CUSTOMER: u8 = 14;
/// Supplier and customer are equal.
pub const SELF_ARC: u8 = 15;
/// An earlier record has the same supplier and customer.
pub const ARC_TWICE: u8 = 16;
/// What follows `normal:` is no whole number in its range.
pub const BOUND: u8 = 17;
/// The name is no stage, or an earlier record of the plan has it.
pub const PLAN_STAGE: u8 = 18;
/// A stage has no record in the plan.
pub const PLAN_MISSING: u8 = 19;
/// A stage reaches itself along arcs.
pub const CYCLE: u8 = 20;
/// The bound names no table.
pub const NO_TABLE: u8 = 21;
/// The bound is `sum` or `pool`, and the stage has no customers.
pub const NO_CUSTOMERS: u8 = 22;
/// An excess demand is too large.
pub const TOO_LARGE: u8 = 23;
/// The budget of ranges asks for too much memory.
pub const BUDGET: u8 = 24;
