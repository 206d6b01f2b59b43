//! Answers as they are printed.

use crate::cases::LongText;
use std::alloc::{AllocError, Global};
use swift_ast::flatten;
use swift_parser::{FileTree, LexFault, LexWhat, ParseFault, parse_file};
use swift_token::{LexEnd, Token, TokenKind, tokens};

/// The most bytes of a text whose tokens are printed.
const MOST_BYTES: usize = 1_000_000;

/// The bytes of a text that is given by its pieces.
pub fn bytes_of(alloc: Global, text: &LongText) -> Result<Vec<u8>, AllocError> {
    let mut bytes = Vec::new(alloc);
    for (piece, count) in text.pieces {
        for _ in 0..*count {
            bytes.extend_from_slice(piece.as_bytes())?;
        }
    }
    Ok(bytes)
}

/// The pieces of a text, each with how often it comes.
pub fn shown_pieces(alloc: Global, text: &LongText) -> Result<String, AllocError> {
    let mut shown = String::new(alloc);
    for (piece, count) in text.pieces {
        if !shown.is_empty() {
            shown.push_str(" ")?;
        }
        let next = format!(in alloc; "{count} of {piece:?}")?;
        shown.push_str(next.as_str())?;
    }
    Ok(shown)
}

fn shown_what(what: LexWhat) -> &'static str {
    match what {
        LexWhat::BadCharacter => "bad character",
        LexWhat::BadNumber => "bad number",
        LexWhat::WideNumber => "wide number",
        LexWhat::OpenString => "open string",
        LexWhat::BadEscape => "bad escape",
        LexWhat::OpenComment => "open comment",
    }
}

fn shown_lex_fault(alloc: Global, fault: LexFault) -> Result<String, AllocError> {
    let LexFault { line, column, what } = fault;
    let text = format!(in alloc; "{} at {line}:{column}", shown_what(what))?;
    Ok(text)
}

// The fault of a file, with its place where it has one.
fn shown_fault(alloc: Global, fault: &ParseFault) -> Result<String, AllocError> {
    match fault {
        ParseFault::TooLarge => String::from_str(alloc, "too large"),
        ParseFault::NotUtf8 => String::from_str(alloc, "not UTF-8"),
        ParseFault::Lex(fault) => shown_lex_fault(alloc, *fault),
        ParseFault::Unexpected {
            line,
            column,
            token,
        } => {
            if token.as_str().is_empty() {
                format!(in alloc; "unexpected end at {line}:{column}")
            } else {
                format!(in alloc; "unexpected '{}' at {line}:{column}", token.as_str())
            }
        }
        ParseFault::TooDeep { line, column } => { format!(in alloc; "too deep at {line}:{column}") }
        ParseFault::NoMemory => Err(AllocError),
    }
}

fn same_token(one: &Token<'_>, other: &Token<'_>) -> bool {
    one.kind == other.kind
        && one.text == other.text
        && one.first_on_line == other.first_on_line
        && one.line == other.line
        && one.column == other.column
}

// Whether both lists have the same tokens.
fn same_tokens(given: &[Token<'_>], found: &[Token<'_>]) -> bool {
    given.len() == found.len()
        && given
            .iter()
            .zip(found)
            .all(|(one, other)| same_token(one, other))
}

// How many tokens a tree gives back; None where they are not those of the text.
fn tokens_given_back(
    alloc: Global,
    text: &str,
    tree: &FileTree,
) -> Result<Option<usize>, AllocError> {
    if text.len() > MOST_BYTES {
        return Ok(None);
    }
    let Ok(given) = flatten(alloc, tree) else {
        return Err(AllocError);
    };
    match tokens(alloc, text) {
        Ok(found) if same_tokens(&given, &found) => Ok(Some(found.len())),
        Ok(_) | Err(LexEnd::Fault(_)) => Ok(None),
        Err(LexEnd::NoMemory) => Err(AllocError),
    }
}

fn text_of(bytes: &[u8]) -> &str {
    str::from_utf8(bytes).unwrap_or("")
}

// What a file gave: its tree, which gives back the file's tokens, or its fault.
fn shown_file(
    alloc: Global,
    bytes: &[u8],
    found: &Result<FileTree, ParseFault>,
) -> Result<String, AllocError> {
    match found {
        Ok(tree) => match tokens_given_back(alloc, text_of(bytes), tree)? {
            Some(_) => String::from_str(alloc, "a tree"),
            None => String::from_str(alloc, "a tree of other tokens"),
        },
        Err(fault) => shown_fault(alloc, fault),
    }
}

/// What `parse_file` answers to the bytes of a file.
pub fn file_answer(alloc: Global, bytes: &[u8]) -> Result<String, AllocError> {
    let found = parse_file(alloc, "a.swift", bytes);
    shown_file(alloc, bytes, &found)
}

// How much a large file gave: the declarations of its tree and the tokens that it gives back, or its fault.
fn shown_size(
    alloc: Global,
    text: &str,
    found: &Result<FileTree, ParseFault>,
) -> Result<String, AllocError> {
    match found {
        Ok(tree) => match tokens_given_back(alloc, text, tree)? {
            Some(count) => {
                format!(in alloc; "declarations: {}, tokens: {count}", tree.decls.len())
            }
            None => String::from_str(alloc, "a tree of other tokens"),
        },
        Err(fault) => shown_fault(alloc, fault),
    }
}

/// How many declarations and tokens a large file has.
pub fn size_answer(alloc: Global, text: &str) -> Result<String, AllocError> {
    let found = parse_file(alloc, "a.swift", text.as_bytes());
    shown_size(alloc, text, &found)
}

// What a file of a project gave: the path of its tree and how many declarations it has, or its fault.
fn shown_project_file(
    alloc: Global,
    found: &Result<FileTree, ParseFault>,
) -> Result<String, AllocError> {
    match found {
        Ok(tree) => {
            let path = tree.path.as_str();
            let text = format!(in alloc; "the tree of {path}, declarations: {}", tree.decls.len())?;
            Ok(text)
        }
        Err(fault) => shown_fault(alloc, fault),
    }
}

/// What `parse_file` answers to a file of a project.
pub fn project_answer(alloc: Global, path: &str, text: &str) -> Result<String, AllocError> {
    let found = parse_file(alloc, path, text.as_bytes());
    shown_project_file(alloc, &found)
}

fn shown_kind(kind: TokenKind) -> &'static str {
    match kind {
        TokenKind::Identifier => "identifier",
        TokenKind::Keyword => "keyword",
        TokenKind::Integer => "integer",
        TokenKind::StringText => "string",
        TokenKind::Mark => "mark",
    }
}

fn shown_token(alloc: Global, token: &Token<'_>) -> Result<String, AllocError> {
    let Token {
        kind,
        text,
        first_on_line,
        line,
        column,
    } = token;
    let kind = shown_kind(*kind);
    let first = if *first_on_line {
        ", first on its line"
    } else {
        ""
    };
    let shown = format!(in alloc; "  {line}:{column} {kind} {text}{first}\n")?;
    Ok(shown)
}

fn shown_tokens(alloc: Global, tokens: &[Token<'_>]) -> Result<String, AllocError> {
    let mut shown = String::new(alloc);
    for token in tokens {
        shown.push_str(shown_token(alloc, token)?.as_str())?;
    }
    Ok(shown)
}

/// What `tokens` answers to a text, a line for each token.
pub fn token_answer(alloc: Global, text: &str) -> Result<String, AllocError> {
    if text.len() > MOST_BYTES {
        return String::from_str(alloc, "  too long\n");
    }
    match tokens(alloc, text) {
        Ok(found) => shown_tokens(alloc, found.as_slice()),
        Err(LexEnd::Fault(fault)) => {
            let shown = shown_lex_fault(alloc, fault)?;
            format!(in alloc; "  {shown}\n")
        }
        Err(LexEnd::NoMemory) => Err(AllocError),
    }
}
