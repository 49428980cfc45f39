// The limits of certificate lines.

/// The most bytes of a line, its line feed not counted.
pub const MAX_LINE: usize = 65_536;

/// The version of the lines, which the head names.
pub const FORMAT: u32 = 1;
