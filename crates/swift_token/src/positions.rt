ghost use Rattle.std.specs.Prelude.{ℕ, List, ◌+◌, ◌<◌, ◌^◌, ◌++◌, ◌≤◌, length};
ghost use Rattle.swift_token.specs.Positions.{IsPositionBehind};

use crate::characters::LINE_FEED;

/// A place in a text.
#[derive(Clone, Copy, Debug)]
pub struct Position {
    /// The line, from 1.
    pub line: u32,

    /// The byte of the line, from 1.
    pub column: u32,
}

impl Position {
    /// The place behind bytes that begin at this one.
    pub fn behind(self, bytes: &[u8]) -> Position
        requires line_fits { self.line + length bytes.now < 2 ^ 32 }
        requires column_fits { self.column + length bytes.now < 2 ^ 32 }
        ensures { (before : List ℕ) → IsPositionBehind self before → IsPositionBehind result (before ++ bytes.now) }
    {
        let mut line = self.line;
        let mut column = self.column;
        for byte in bytes {
            if *byte == LINE_FEED {
                line += 1;
                column = 1;
            } else {
                column += 1;
            }
        }
        Position { line, column }
    }
}
