ghost use Rattle.std.specs.Prelude.{◌≡◌};
ghost use Rattle.swift_token.specs.Spelling.{begins_by, begins_comment};
ghost use Rattle.swift_token.specs.Texts.{is_letter};
ghost use Rattle.swift_token.specs.NextLexeme.{number_len, number_lexeme, word_lexeme, string_lexeme, mark_lexeme, comment_lexeme, next_lexeme};

use crate::characters::{QUOTE, SLASH, STAR, UNDERSCORE};
use crate::faults::LexWhat;
use crate::identifiers::{begins_word, is_keyword_text};
use crate::lexemes::{is_narrow, word_len};
use crate::marks::{is_long_mark, is_short_mark};
use crate::strings::{bad_escape, string_end};
use swift_ast::TokenKind;

/// What stands first in a text behind trivia.
#[derive(Clone, Copy, Debug)]
pub enum NextLexeme {
    /// Nothing, or a comment that the text ends in.
    End,

    /// A token of so many bytes.
    Token(TokenKind, usize),

    /// A fault so many bytes on.
    Fault(LexWhat, usize),
}

/// How many digits and `_` stand at the front.
fn number_len(bytes: &[u8]) -> usize
    ensures { result ≡ number_len bytes.now }
{
    for (i, byte) in bytes.iter().enumerate() {
        if !(byte.is_ascii_digit() || *byte == UNDERSCORE) {
            return i;
        }
    }
    bytes.len()
}

fn begins_with_letter(bytes: &[u8]) -> bool
    ensures { result ≡ begins_by is_letter bytes.now }
{
    match bytes {
        [first, ..] => first.is_ascii_alphabetic(),
        [] => false,
    }
}

/// What stands in a text that begins with a digit.
fn number_lexeme(bytes: &[u8]) -> NextLexeme
    ensures { result ≡ number_lexeme bytes.now }
{
    let (number, after) = bytes.split_at(number_len(bytes));
    if begins_with_letter(after) {
        NextLexeme::Fault(LexWhat::BadNumber, 0)
    } else if is_narrow(number) {
        NextLexeme::Token(TokenKind::Integer, number.len())
    } else {
        NextLexeme::Fault(LexWhat::WideNumber, 0)
    }
}

/// What stands in a text that begins with a letter or `_`.
fn word_lexeme(bytes: &[u8]) -> NextLexeme
    ensures { result ≡ word_lexeme bytes.now }
{
    let len = word_len(bytes);
    let kind = if is_keyword_text(&bytes[..len]) {
        TokenKind::Keyword
    } else {
        TokenKind::Identifier
    };
    NextLexeme::Token(kind, len)
}

/// What stands in a text that begins with a quote, by the bytes behind it.
fn string_lexeme(behind: &[u8]) -> NextLexeme
    ensures { result ≡ string_lexeme behind.now }
{
    let Some(len) = string_end(behind) else {
        return NextLexeme::Fault(LexWhat::OpenString, 0);
    };
    match bad_escape(&behind[..len]) {
        None => NextLexeme::Token(TokenKind::StringText, len + 1),
        Some(at) => NextLexeme::Fault(LexWhat::BadEscape, at),
    }
}

/// What stands in a text that begins with no letter, digit, `_`, quote or comment.
fn mark_lexeme(bytes: &[u8]) -> NextLexeme
    ensures { result ≡ mark_lexeme bytes.now }
{
    if is_long_mark(&bytes[..bytes.len().min(2)]) {
        NextLexeme::Token(TokenKind::Mark, 2)
    } else if is_short_mark(&bytes[..bytes.len().min(1)]) {
        NextLexeme::Token(TokenKind::Mark, 1)
    } else {
        NextLexeme::Fault(LexWhat::BadCharacter, 0)
    }
}

fn begins_comment(bytes: &[u8]) -> bool
    ensures { result ≡ begins_comment bytes.now }
{
    match bytes {
        [first, second, ..] => *first == SLASH && (*second == SLASH || *second == STAR),
        _ => false,
    }
}

/// What stands in a text that begins with a comment without end, by the bytes behind the first.
fn comment_lexeme(behind: &[u8]) -> NextLexeme
    ensures { result ≡ comment_lexeme behind.now }
{
    match behind {
        [second, ..] => {
            if *second == STAR {
                NextLexeme::Fault(LexWhat::OpenComment, 0)
            } else {
                NextLexeme::End
            }
        }
        [] => NextLexeme::End,
    }
}

/// What stands first in a text behind trivia.
pub fn next_lexeme(bytes: &[u8]) -> NextLexeme
    ensures { result ≡ next_lexeme bytes.now }
{
    let [first, behind @ ..] = bytes else {
        return NextLexeme::End;
    };
    if first.is_ascii_digit() {
        number_lexeme(bytes)
    } else if begins_word(*first) {
        word_lexeme(bytes)
    } else if *first == QUOTE {
        string_lexeme(behind)
    } else if begins_comment(bytes) {
        comment_lexeme(behind)
    } else {
        mark_lexeme(bytes)
    }
}
