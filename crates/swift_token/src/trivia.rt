ghost use Rattle.std.specs.Prelude.{◌≡◌, ◌+◌, ◌≤◌, IfSome, length, take, drop};
ghost use Rattle.std.specs.Str.{IsUtf8, IsCharBoundary};
ghost use Rattle.swift_token.specs.Trivia.{IsTrivia, NoTriviaPiece};
ghost use Rattle.swift_token.specs.Scans.{line_end, slash_end, trivia_piece_end};

use crate::characters::{LINE_FEED, SLASH, STAR};
use crate::comments::comment_end;
use crate::lexemes::is_blank;

/// How many bytes stand through the line feed of a line, if it has one.
fn line_end(bytes: &[u8]) -> Option<usize>
    ensures value { result ≡ line_end bytes.now }
    ensures within { IfSome result (λ n. n ≤ length bytes.now) }
{
    for (i, byte) in bytes.iter().enumerate() {
        if *byte == LINE_FEED {
            return Some(i + 1);
        }
    }
    None
}

/// How many bytes a comment has, by what stands behind its first byte.
fn slash_end(behind: &[u8]) -> Option<usize>
    ensures value { result ≡ slash_end behind.now }
    ensures within { IfSome result (λ n. n ≤ length behind.now + 1) }
{
    let [second, inside @ ..] = behind else {
        return None;
    };
    if *second == SLASH {
        return match line_end(inside) {
            Some(n) => Some(2 + n),
            None => None,
        };
    }
    if *second == STAR {
        return match comment_end(inside) {
            Some(n) => Some(2 + n),
            None => None,
        };
    }
    None
}

/// How many bytes the blank or the comment has that stands first, if one does.
fn trivia_piece_end(bytes: &[u8]) -> Option<usize>
    ensures value { result ≡ trivia_piece_end bytes.now }
{
    let [first, behind @ ..] = bytes else {
        return None;
    };
    if is_blank(*first) {
        return Some(1);
    }
    if *first == SLASH {
        return slash_end(behind);
    }
    None
}

/// How many bytes the blanks and comments have that stand first.
pub fn trivia_len(bytes: &[u8]) -> usize
    ensures within { result ≤ length bytes.now }
    ensures trivia { IsTrivia (take result bytes.now) }
    ensures behind { NoTriviaPiece (drop result bytes.now) }
    ensures boundary { IsUtf8 bytes.now → IsCharBoundary bytes.now result }
{
    let mut len = 0;
    'pieces: while let Some(n) = trivia_piece_end(&bytes[len..]) {
        len += n;
    }
    len
}
