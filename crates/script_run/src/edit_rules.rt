//! The numbers of the rules on edits: E1 to E3 in docs/REFUSALS.md.

/// The first field is no word of a script, or the column word is none.
pub const UNKNOWN_WORD: u8 = 1;

/// The word takes another number of fields.
pub const FIELD_NUMBER: u8 = 2;

/// What is named has no record.
pub const UNKNOWN_NAME: u8 = 3;
