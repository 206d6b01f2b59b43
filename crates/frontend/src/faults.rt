//! The error of a file without a tree.

ghost use Rattle.std.specs.Prelude.{◌≡◌, IfOk, OnOk};
ghost use Rattle.frontend.specs.Parsing as spec;

use dep_key::{NoMemory, Path, Text};
use diag_text::Diag;
use std::alloc::Global;
use swift_parser::{LexWhat, MAX_FILE_BYTES, MAX_LEVELS, ParseFault};

/// The greatest integer that a literal may stand for.
const MAX_INTEGER: u64 = i64::MAX as u64;

/// The text of an error that has a number.
fn numbered(alloc: Global, before: &str, number: u64, after: &str) -> Result<Text, NoMemory>
    ensures { IfOk result (λ text. text ≡ spec.numbered before.now number after.now) }
{
    let text = format!(in alloc; "{before}{number}{after}")?;
    Ok(Text::from_vec(text.into_bytes()))
}

/// What a lexical fault says.
fn lexical_text(alloc: Global, what: LexWhat) -> Result<Text, NoMemory>
    ensures { IfOk result (λ text. text ≡ spec.lexical_text what) }
{
    match what {
        LexWhat::BadCharacter => Ok(Text::from_slice(alloc, b"character not allowed")?),
        LexWhat::BadNumber => Ok(Text::from_slice(alloc, b"bad number")?),
        LexWhat::WideNumber => numbered(alloc, "integer literal is larger than ", MAX_INTEGER, ""),
        LexWhat::OpenString => Ok(Text::from_slice(alloc, b"string is not closed")?),
        LexWhat::BadEscape => Ok(Text::from_slice(alloc, b"bad escape")?),
        LexWhat::OpenComment => Ok(Text::from_slice(alloc, b"comment is not closed")?),
    }
}

/// What is said of a token that isn't expected; the end of a file has no text.
fn unexpected_text(alloc: Global, token: &[u8]) -> Result<Text, NoMemory>
    ensures { IfOk result (λ text. text ≡ spec.unexpected_text token.now) }
{
    if token.is_empty() {
        return Ok(Text::from_slice(alloc, b"unexpected end of file")?);
    }
    let mut text = Vec::new(alloc);
    text.extend_from_slice(b"unexpected '")?;
    text.extend_from_slice(token)?;
    text.extend_from_slice(b"'")?;
    Ok(Text::from_vec(text))
}

fn error_at(path: Path, line: u32, column: u32, text: Text) -> Diag
    ensures { result ≡ spec.error_at path line column text }
{
    Diag {
        path,
        line,
        column,
        text,
    }
}

/// The error of a file that has this fault and no tree.
pub fn fault_error(alloc: Global, path: Path, fault: &ParseFault) -> Result<Diag, NoMemory>
    ensures told { OnOk result (spec.IsTold fault.now) }
    ensures error { IfOk result (λ error. error ≡ spec.fault_error path fault.now) }
{
    match fault {
        ParseFault::TooLarge => {
            let text = numbered(
                alloc,
                "file is longer than ",
                MAX_FILE_BYTES as u64,
                " bytes",
            )?;
            Ok(error_at(path, 1, 1, text))
        }
        ParseFault::NotUtf8 => {
            let text = Text::from_slice(alloc, b"file is not UTF-8")?;
            Ok(error_at(path, 1, 1, text))
        }
        ParseFault::Lex(fault) => {
            let text = lexical_text(alloc, fault.what)?;
            Ok(error_at(path, fault.line, fault.column, text))
        }
        ParseFault::Unexpected {
            line,
            column,
            token,
        } => {
            let text = unexpected_text(alloc, token.as_str().as_bytes())?;
            Ok(error_at(path, *line, *column, text))
        }
        ParseFault::TooDeep { line, column } => {
            let text = numbered(alloc, "nested deeper than ", MAX_LEVELS as u64, " levels")?;
            Ok(error_at(path, *line, *column, text))
        }
        ParseFault::NoMemory => Err(NoMemory),
    }
}
