ghost use Rattle.std.specs.Prelude.{◌≡◌, ◌≤◌, length, map, Some, None};
ghost use Rattle.swift_ast.specs.Leaves.{leaf_of};
ghost use Rattle.swift_ast.specs.Tests.{one_of, level_openings, level_closings};
ghost use Rattle.swift_token.specs.Positions.{IsPositionBehind};
ghost use Rattle.swift_token.specs.declared.limits.TheConstants.{MAX_FILE_BYTES};
ghost use Rattle.swift_parser.specs.Whole.{DeepAt, IsReadable, IsUnexpectedHere, IsTooDeepHere, AreAll, DeclsGive, TellsTokens, ParsesFile};

use crate::ParseFault;
use crate::declarations::decls;
use sqlite_items::Items;
use std::alloc::Global;
use swift_ast::{Decl, FileTree, Terminal, Text, Token};
use swift_token::{LexEnd, MAX_FILE_BYTES, Position, tokens};
use token_cursor::{Stop, TokenCursor, terminal};

/// The most levels of brackets.
pub const MAX_LEVELS: usize = 100;

fn opens_level(terminal: Terminal) -> bool
    ensures { result ≡ one_of level_openings terminal }
{
    matches!(terminal, Terminal::LeftParenthesis | Terminal::LeftBrace)
}

fn closes_level(terminal: Terminal) -> bool
    ensures { result ≡ one_of level_closings terminal }
{
    matches!(terminal, Terminal::RightParenthesis | Terminal::RightBrace)
}

/// The place in the list of the first bracket that opens a level above the limit.
fn too_deep_at(tokens: &[Token<'_>]) -> Option<usize>
    ensures { DeepAt result (map leaf_of tokens.now) }
{
    let mut held = 0;
    for (at, token) in tokens.iter().enumerate() {
        let bracket = terminal(token);
        if opens_level(bracket) {
            if held >= MAX_LEVELS {
                return Some(at);
            }
            held += 1;
        } else if closes_level(bracket) && held > 0 {
            held -= 1;
        }
    }
    None
}

/// The place behind the last byte of a file.
fn end_of(bytes: &[u8]) -> Position
    requires { length bytes.now ≤ MAX_FILE_BYTES }
    ensures { IsPositionBehind result bytes.now }
{
    let start = Position { line: 1, column: 1 };
    start.behind(bytes)
}

/// The fault where a file's tokens can't continue with the rest of them.
fn unexpected(alloc: Global, bytes: &[u8], rest: &[Token<'_>]) -> ParseFault
    requires { length bytes.now ≤ MAX_FILE_BYTES }
    ensures { IsUnexpectedHere bytes.now (map leaf_of rest.now) result }
{
    match rest {
        [next, ..] => match Text::from_str(alloc, next.text) {
            Ok(token) => ParseFault::Unexpected {
                line: next.line,
                column: next.column,
                token,
            },
            Err(_) => ParseFault::NoMemory,
        },
        [] => {
            let end = end_of(bytes);
            ParseFault::Unexpected {
                line: end.line,
                column: end.column,
                token: Text::from_string(String::new(alloc)),
            }
        }
    }
}

/// The fault where the rest begins with a bracket that is too deep.
fn too_deep(bytes: &[u8], rest: &[Token<'_>]) -> ParseFault
    requires { length bytes.now ≤ MAX_FILE_BYTES }
    ensures { IsTooDeepHere bytes.now (map leaf_of rest.now) result }
{
    match rest {
        [bracket, ..] => ParseFault::TooDeep {
            line: bracket.line,
            column: bracket.column,
        },
        [] => {
            let end = end_of(bytes);
            ParseFault::TooDeep {
                line: end.line,
                column: end.column,
            }
        }
    }
}

/// Why tokens are no file.
enum Ended<'a> {
    /// The first fault stands where these tokens begin, or where they end.
    At(&'a [Token<'a>]),

    /// Memory was wanted and not there.
    NoMemory,
}

/// The declarations of which the tokens are, with no limit of levels.
fn all_decls<'a>(alloc: Global, tokens: &'a [Token<'a>]) -> Result<Items<Decl>, Ended<'a>>
    ensures { AreAll result (map leaf_of tokens.now) }
{
    let mut left = TokenCursor::new(tokens);
    match decls(alloc, &mut left) {
        Ok(all) => {
            let rest = left.rest();
            if rest.is_empty() {
                Ok(all)
            } else {
                Err(Ended::At(rest))
            }
        }
        Err(Stop::Unexpected) => Err(Ended::At(left.rest())),
        Err(Stop::NoMemory) => Err(Ended::NoMemory),
    }
}

/// The declarations of a file with tokens none of which opens a level that is too deep.
fn shallow_decls(
    alloc: Global,
    bytes: &[u8],
    tokens: &[Token<'_>],
) -> Result<Items<Decl>, ParseFault>
    requires bytes { length bytes.now ≤ MAX_FILE_BYTES }
    requires shallow { DeepAt None (map leaf_of tokens.now) }
    ensures { DeclsGive bytes.now (map leaf_of tokens.now) result }
{
    match all_decls(alloc, tokens) {
        Ok(all) => Ok(all),
        Err(Ended::At(rest)) => Err(unexpected(alloc, bytes, rest)),
        Err(Ended::NoMemory) => Err(ParseFault::NoMemory),
    }
}

/// The same where the token at the place opens a level that is too deep: the tokens up to it and with
/// it are no file.
fn cut_decls(
    alloc: Global,
    bytes: &[u8],
    tokens: &[Token<'_>],
    at: usize,
) -> Result<Items<Decl>, ParseFault>
    requires bytes { length bytes.now ≤ MAX_FILE_BYTES }
    requires deep { DeepAt (Some at) (map leaf_of tokens.now) }
    ensures { DeclsGive bytes.now (map leaf_of tokens.now) result }
{
    let (cut, _) = tokens.split_at(at + 1);
    let (_, deep) = tokens.split_at(at);
    match all_decls(alloc, cut) {
        Ok(all) => Ok(all),
        Err(Ended::At(rest)) => {
            if rest.is_empty() {
                Err(too_deep(bytes, deep))
            } else {
                Err(unexpected(alloc, bytes, rest))
            }
        }
        Err(Ended::NoMemory) => Err(ParseFault::NoMemory),
    }
}

/// The declarations of a file with these tokens.
fn file_decls(alloc: Global, bytes: &[u8], tokens: &[Token<'_>]) -> Result<Items<Decl>, ParseFault>
    requires { length bytes.now ≤ MAX_FILE_BYTES }
    ensures { DeclsGive bytes.now (map leaf_of tokens.now) result }
{
    match too_deep_at(tokens) {
        Some(at) => cut_decls(alloc, bytes, tokens, at),
        None => shallow_decls(alloc, bytes, tokens),
    }
}

/// The tree of a file that has these tokens.
fn file_tree(
    alloc: Global,
    path: &str,
    bytes: &[u8],
    tokens: &[Token<'_>],
) -> Result<FileTree, ParseFault>
    requires readable { IsReadable bytes.now }
    requires tokens { TellsTokens bytes.now (map leaf_of tokens.now) }
    ensures { ParsesFile path.now bytes.now result }
{
    let decls = file_decls(alloc, bytes, tokens)?;
    match Text::from_str(alloc, path) {
        Ok(path) => Ok(FileTree { path, decls }),
        Err(_) => Err(ParseFault::NoMemory),
    }
}

/// The tree of a source file, or its first fault.
///
/// The path is the one that the tree gets. A file has at most `MAX_FILE_BYTES` bytes, is UTF-8, and has
/// tokens that are a file of the grammar in which at most `MAX_LEVELS` levels of brackets are open. The first
/// fault is what stands first in this order: `TooLarge`, `NotUtf8`, the first lexical fault, and the
/// first token that is `Unexpected` or the first bracket that is `TooDeep`, whichever comes first,
/// `Unexpected` at the same token.
pub fn parse_file(alloc: Global, path: &str, bytes: &[u8]) -> Result<FileTree, ParseFault>
    ensures parses { ParsesFile path.now bytes.now result }
{
    if bytes.len() > MAX_FILE_BYTES {
        return Err(ParseFault::TooLarge);
    }
    let Ok(text) = str::from_utf8(bytes) else {
        return Err(ParseFault::NotUtf8);
    };
    match tokens(alloc, text) {
        Ok(found) => file_tree(alloc, path, bytes, found.as_slice()),
        Err(LexEnd::Fault(fault)) => Err(ParseFault::Lex(fault)),
        Err(LexEnd::NoMemory) => Err(ParseFault::NoMemory),
    }
}
