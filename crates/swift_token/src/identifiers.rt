ghost use Rattle.std.specs.Prelude.{◌≡◌};
ghost use Rattle.std.specs.List.{list_all};
ghost use Rattle.swift_token.specs.Texts.{is_identifier as is_identifier_text, is_keyword as is_keyword_text, is_word as is_word_text, begins_word, is_word_byte};

use crate::characters::UNDERSCORE;

/// The words that no identifier is: those with a place in the grammar, and those that are only reserved. By length.
static KEYWORDS_TO_2: [&[u8]; 6] = [b"_", b"if", b"in", b"do", b"is", b"as"];

static KEYWORDS_OF_3: [&[u8]; 6] = [b"let", b"var", b"for", b"try", b"nil", b"Any"];

static KEYWORDS_OF_4: [&[u8]; 8] = [
    b"func", b"else", b"true", b"self", b"enum", b"init", b"case", b"Self",
];

static KEYWORDS_OF_5: [&[u8]; 11] = [
    b"while", b"false", b"class", b"catch", b"throw", b"guard", b"defer", b"break", b"where",
    b"inout", b"super",
];

static KEYWORDS_OF_6: [&[u8]; 9] = [
    b"struct", b"return", b"public", b"import", b"deinit", b"switch", b"throws", b"repeat",
    b"static",
];

static KEYWORDS_TO_8: [&[u8]; 7] = [
    b"private",
    b"default",
    b"internal",
    b"protocol",
    b"rethrows",
    b"continue",
    b"operator",
];

static KEYWORDS_FROM_9: [&[u8]; 6] = [
    b"extension",
    b"typealias",
    b"fileprivate",
    b"fallthrough",
    b"subscript",
    b"associatedtype",
];

/// Whether a name can begin with the byte: a letter or `_`.
pub fn begins_word(byte: u8) -> bool
    ensures { result ≡ begins_word byte }
{
    byte.is_ascii_alphabetic() || byte == UNDERSCORE
}

/// Whether a name can go on with the byte: a letter, a digit or `_`.
pub fn is_word_byte(byte: u8) -> bool
    ensures { result ≡ is_word_byte byte }
{
    begins_word(byte) || byte.is_ascii_digit()
}

/// Whether the bytes are a keyword.
pub fn is_keyword_text(bytes: &[u8]) -> bool
    ensures { result ≡ is_keyword_text bytes.now }
{
    match bytes.len() {
        0..=2 => KEYWORDS_TO_2.contains(&bytes),
        3 => KEYWORDS_OF_3.contains(&bytes),
        4 => KEYWORDS_OF_4.contains(&bytes),
        5 => KEYWORDS_OF_5.contains(&bytes),
        6 => KEYWORDS_OF_6.contains(&bytes),
        7 | 8 => KEYWORDS_TO_8.contains(&bytes),
        _ => KEYWORDS_FROM_9.contains(&bytes),
    }
}

/// Whether the text is a keyword.
pub fn is_keyword(text: &str) -> bool
    ensures { result ≡ is_keyword_text text.now }
{
    is_keyword_text(text.as_bytes())
}

fn are_word_bytes(bytes: &[u8]) -> bool
    ensures { result ≡ list_all is_word_byte bytes.now }
{
    bytes.iter().all(|byte| is_word_byte(*byte))
}

/// Whether the bytes are a letter or `_`, then letters, digits and `_`.
pub fn is_word(bytes: &[u8]) -> bool
    ensures { result ≡ is_word_text bytes.now }
{
    match bytes {
        [first, rest @ ..] => begins_word(*first) && are_word_bytes(rest),
        [] => false,
    }
}

/// Whether the text is an identifier: a letter or `_`, then letters, digits and `_`, and no keyword.
pub fn is_identifier(text: &str) -> bool
    ensures { result ≡ is_identifier_text text.now }
{
    is_word(text.as_bytes()) && !is_keyword(text)
}
