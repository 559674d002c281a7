// The two bytes that part a text, and how long a text may be.

/// The byte that ends a line.
pub const NEWLINE: u8 = b'\n';

/// The byte between two fields of a line.
pub const TAB: u8 = b'\t';

/// The most bytes of a text that is read (docs/RULES.md, "The scenario").
pub const LONGEST: usize = 65_536;
