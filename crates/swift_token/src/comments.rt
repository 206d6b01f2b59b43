ghost use Rattle.std.specs.Prelude.{◌≡◌, ℕ, ◌+◌, ◌<◌, ◌≤◌, ◌^◌, List, ◌∷◌, ◌==◌, ◌&&◌, IfSome, length};
ghost use Rattle.swift_token.specs.Scans.{comment_end, later};
ghost use Rattle.swift_token.specs.declared.characters.TheConstants.{SLASH, STAR};

use crate::characters::{SLASH, STAR};

/// Inside a comment: how many comments are open, and the byte before if it isn't one of a `/*` or `*/`, else 0.
#[derive(Clone, Copy, Debug)]
struct Inside {
    depth: usize,
    last: u8,
}

/// Whether the byte and the one before it are `*/`.
fn is_closing(last: u8, byte: u8) -> bool
    ensures { result ≡ (last == STAR && byte == SLASH) }
{
    last == STAR && byte == SLASH
}

/// Whether the byte and the one before it are `/*`.
fn is_opening(last: u8, byte: u8) -> bool
    ensures { result ≡ (last == SLASH && byte == STAR) }
{
    last == SLASH && byte == STAR
}

impl Inside {
    /// One byte on.
    fn behind(self, byte: u8) -> Inside
        requires inside { 0 < self.depth }
        requires fits { self.depth < 2 ^ 63 }
        ensures rest { (cs : List ℕ) → comment_end self.depth self.last (byte ∷ cs) ≡ later 1 (comment_end result.depth result.last cs) }
        ensures bound { result.depth ≤ self.depth + 1 }
    {
        if is_closing(self.last, byte) {
            return Inside {
                depth: self.depth - 1,
                last: 0,
            };
        }
        if is_opening(self.last, byte) {
            return Inside {
                depth: self.depth + 1,
                last: 0,
            };
        }
        Inside {
            depth: self.depth,
            last: byte,
        }
    }
}

/// How many bytes stand behind the `/*` of a comment through its `*/`, if it has one. A `/*` opens a comment within.
pub fn comment_end(bytes: &[u8]) -> Option<usize>
    ensures value { result ≡ comment_end 1 0 bytes.now }
    ensures within { IfSome result (λ n. n ≤ length bytes.now) }
{
    let mut inside = Inside { depth: 1, last: 0 };
    for (i, byte) in bytes.iter().enumerate() {
        inside = inside.behind(*byte);
        if inside.depth == 0 {
            return Some(i + 1);
        }
    }
    None
}
