ghost use Rattle.std.specs.Prelude.{◌≡◌, ◌||◌, ◌-◌, ◌<◌, ◌^◌, nat_lt, length};
ghost use Rattle.swift_token.specs.Faults.{Lexes};

use crate::faults::{LexEnd, LexFault};
use crate::next_lexeme::{NextLexeme, next_lexeme};
use crate::positions::Position;
use crate::trivia::trivia_len;
use std::alloc::Global;
use swift_ast::Token;

/// Whether a token is the first of its line: the first of all, or on another line than what stands before it.
pub fn is_first_on_line(is_first: bool, before: Position, start: Position) -> bool
    ensures { result ≡ (is_first || nat_lt before.line start.line) }
{
    is_first || before.line < start.line
}

/// The tokens of a text, or its first lexical fault.
///
/// Each token is the longest possible. Between tokens stand spaces, tabs, carriage returns, line feeds and comments,
/// which run from `//` to the end of the line, or from `/*` to its `*/` with those inside it.
pub fn tokens<'a>(alloc: Global, text: &'a str) -> Result<Vec<Token<'a>>, LexEnd>
    requires { length text.now < 2 ^ 32 - 1 }
    ensures { Lexes result text.now }
{
    let mut tokens = Vec::new(alloc);
    let mut place = Position { line: 1, column: 1 };
    let mut rest = text;
    'tokens: loop {
        let (trivia, behind) = rest.split_at(trivia_len(rest.as_bytes()));
        let start = place.behind(trivia.as_bytes());
        match next_lexeme(behind.as_bytes()) {
            NextLexeme::End => return Ok(tokens),
            NextLexeme::Fault(what, at) => {
                let (front, _) = behind.as_bytes().split_at(at);
                let Position { line, column } = start.behind(front);
                return Err(LexEnd::Fault(LexFault { line, column, what }));
            }
            NextLexeme::Token(kind, len) => {
                let (text, after) = behind.split_at(len);
                let first_on_line = is_first_on_line(tokens.is_empty(), place, start);
                tokens.push(Token {
                    kind,
                    text,
                    first_on_line,
                    line: start.line,
                    column: start.column,
                })?;
                place = start.behind(text.as_bytes());
                rest = after;
            }
        }
    }
}
