//! The numbers of the rules on words, as they are printed behind a `W`.

/// There is no word.
pub const NO_WORD: u8 = 1;
/// The first word is no command.
pub const NO_COMMAND: u8 = 2;
/// A later word has no `=`.
pub const NO_EQUALS: u8 = 3;
/// The key is not one of the command's.
pub const UNKNOWN_KEY: u8 = 4;
/// The key stood before.
pub const KEY_TWICE: u8 = 5;
/// A key that the command requires is missing.
pub const MISSING_KEY: u8 = 6;
/// The value is not one that the key may have.
pub const BAD_VALUE: u8 = 7;
/// The name of a file that is read is kept for what is written: it is the name given for that, or, where what is written is numbered,
/// begins with it and a dash.
pub const NAME_REUSED: u8 = 8;
