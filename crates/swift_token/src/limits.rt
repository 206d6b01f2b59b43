//! The limits of the language.

/// The greatest integer that a literal may stand for, 2 ^ 63 - 1.
pub const MAX_INTEGER: u64 = 9_223_372_036_854_775_807;

/// The most bytes of a source file.
pub const MAX_FILE_BYTES: usize = 262_144;
