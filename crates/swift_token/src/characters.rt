//! The characters of the lexical grammar, by name.

pub const TAB: u8 = b'\t';

pub const LINE_FEED: u8 = b'\n';

pub const CARRIAGE_RETURN: u8 = b'\r';

pub const SPACE: u8 = b' ';

pub const QUOTE: u8 = b'"';

pub const BACKSLASH: u8 = b'\\';

pub const SLASH: u8 = b'/';

pub const STAR: u8 = b'*';

pub const UNDERSCORE: u8 = b'_';

/// The least and the greatest digit.
pub const DIGIT_0: u8 = b'0';

pub const DIGIT_9: u8 = b'9';

/// The first and the last letter of each case.
pub const UPPER_A: u8 = b'A';

pub const UPPER_Z: u8 = b'Z';

pub const LOWER_A: u8 = b'a';

pub const LOWER_Z: u8 = b'z';

/// The letters of the escapes for line feed, carriage return and tab.
pub const LOWER_N: u8 = b'n';

pub const LOWER_R: u8 = b'r';

pub const LOWER_T: u8 = b't';
