ghost use Rattle.std.specs.Prelude.{◌≡◌, ◌==◌, ◌||◌, nat_le};
ghost use Rattle.std.specs.List.{list_all, prefix_len};
ghost use Rattle.swift_token.specs.Texts.{is_blank, is_digit, is_number as is_number_text, is_token_text, number_value};
ghost use Rattle.swift_token.specs.Texts.{is_word_byte};
ghost use Rattle.swift_token.specs.declared.characters.TheConstants.{UNDERSCORE};
ghost use Rattle.swift_token.specs.declared.limits.TheConstants.{MAX_INTEGER};

use crate::characters::{CARRIAGE_RETURN, DIGIT_0, LINE_FEED, SPACE, TAB, UNDERSCORE};
use crate::identifiers::is_word_byte;
use crate::limits::MAX_INTEGER;
use swift_ast::TokenKind;

/// Whether the byte is a space, a tab, a carriage return or a line feed.
pub fn is_blank(byte: u8) -> bool
    ensures { result ≡ is_blank byte }
{
    byte == SPACE || byte == TAB || byte == CARRIAGE_RETURN || byte == LINE_FEED
}

/// How many blanks stand at the front.
pub fn blanks_len(bytes: &[u8]) -> usize
    ensures { result ≡ prefix_len is_blank bytes.now }
{
    for (i, byte) in bytes.iter().enumerate() {
        if !is_blank(*byte) {
            return i;
        }
    }
    bytes.len()
}

/// How many letters, digits and `_` stand at the front.
pub fn word_len(bytes: &[u8]) -> usize
    ensures { result ≡ prefix_len is_word_byte bytes.now }
{
    for (i, byte) in bytes.iter().enumerate() {
        if !is_word_byte(*byte) {
            return i;
        }
    }
    bytes.len()
}

fn are_digits(bytes: &[u8]) -> bool
    ensures { result ≡ list_all (λ d. is_digit d || d == UNDERSCORE) bytes.now }
{
    bytes
        .iter()
        .all(|byte| byte.is_ascii_digit() || *byte == UNDERSCORE)
}

/// Whether the bytes are a digit, then digits and `_`.
pub fn is_number(bytes: &[u8]) -> bool
    ensures { result ≡ is_number_text bytes.now }
{
    match bytes {
        [first, rest @ ..] => first.is_ascii_digit() && are_digits(rest),
        [] => false,
    }
}

/// Whether the value of the digits in base 10, each `_` passed over, is at most 2 ^ 63 - 1.
pub fn is_narrow(bytes: &[u8]) -> bool
    ensures { result ≡ nat_le (number_value bytes.now) MAX_INTEGER }
{
    let mut value: u64 = 0;
    for byte in bytes {
        if *byte != UNDERSCORE {
            if value > MAX_INTEGER / 10 {
                return false;
            }
            value = 10 * value + u64::from(byte.saturating_sub(DIGIT_0));
            if value > MAX_INTEGER {
                return false;
            }
        }
    }
    true
}

/// Whether the bytes are an integer literal: a digit, then digits and `_`, of a value up to 2 ^ 63 - 1.
pub fn is_integer(bytes: &[u8]) -> bool
    ensures { result ≡ is_token_text TokenKind.Integer bytes.now }
{
    is_number(bytes) && is_narrow(bytes)
}
