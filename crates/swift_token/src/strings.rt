ghost use Rattle.std.specs.Prelude.{◌≡◌, ◌≤◌, false, IfSome, length};
ghost use Rattle.swift_token.specs.Texts.{is_escape, breaks_string};
ghost use Rattle.swift_token.specs.Scans.{string_end, bad_escape};

use crate::characters::{
    BACKSLASH, CARRIAGE_RETURN, DIGIT_0, LINE_FEED, LOWER_N, LOWER_R, LOWER_T, QUOTE,
};

/// Whether the byte makes an escape with a `\` before it.
fn is_escape(byte: u8) -> bool
    ensures { result ≡ is_escape byte }
{
    byte == LOWER_N
        || byte == LOWER_T
        || byte == LOWER_R
        || byte == DIGIT_0
        || byte == BACKSLASH
        || byte == QUOTE
}

/// Whether a string has its end in front of the byte at the latest.
fn breaks_string(byte: u8) -> bool
    ensures { result ≡ breaks_string byte }
{
    byte == LINE_FEED || byte == CARRIAGE_RETURN
}

/// How many bytes stand behind a string's opening quote through the one that closes it, if one does.
pub fn string_end(bytes: &[u8]) -> Option<usize>
    ensures value { result ≡ string_end false bytes.now }
    ensures within { IfSome result (λ n. n ≤ length bytes.now) }
{
    let mut escaped = false;
    for (i, byte) in bytes.iter().enumerate() {
        if !escaped && *byte == QUOTE {
            return Some(i + 1);
        }
        if breaks_string(*byte) {
            return None;
        }
        escaped = !escaped && *byte == BACKSLASH;
    }
    None
}

/// How many bytes stand in front of the first byte that a `\` stands before and that makes no escape.
pub fn bad_escape(bytes: &[u8]) -> Option<usize>
    ensures { result ≡ bad_escape false bytes.now }
{
    let mut escaped = false;
    for (i, byte) in bytes.iter().enumerate() {
        if escaped && !is_escape(*byte) {
            return Some(i);
        }
        escaped = !escaped && *byte == BACKSLASH;
    }
    None
}
