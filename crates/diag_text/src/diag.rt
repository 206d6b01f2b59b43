ghost use Rattle.std.specs.Prelude.{◌≡◌, ◌++◌, IfOk, OnOk, string_bytes};
ghost use Rattle.diag_text.specs.Line.{place_of, line_of, lines_of};

use dep_key::{NoMemory, Path, Text};
use std::alloc::{AllocError, Global};

/// An error, and the place of the token that it names.
///
/// With an empty path the error has no place, and its line and column aren't looked at.
#[derive(Debug, Drop)]
pub struct Diag {
    pub path: Path,

    /// The line, from 1.
    pub line: u32,

    /// The byte of the line, from 1.
    pub column: u32,

    /// What is wrong, without a line feed.
    pub text: Text,
}

// `PATH:LINE:COLUMN: `, or nothing without a path.
fn place(alloc: Global, path: &str, line: u32, column: u32) -> Result<String, AllocError>
    ensures { IfOk result (λ place. string_bytes place ≡ place_of path.now line column) }
{
    if path.is_empty() {
        return Ok(String::new(alloc));
    }
    let place = format!(in alloc; "{path}:{line}:{column}: ")?;
    Ok(place)
}

// Puts the line of an error behind the text so far.
fn push_line(alloc: Global, printed: &mut Vec<u8>, diag: &Diag) -> Result<(), AllocError>
    ensures { OnOk result (printed.new.items ≡ printed.old.items ++ line_of diag.now) }
{
    let place = place(alloc, diag.path.as_str(), diag.line, diag.column)?;
    printed.extend_from_slice(place.as_bytes())?;
    printed.extend_from_slice(b"error: ")?;
    printed.extend_from_slice(diag.text.as_slice())?;
    printed.extend_from_slice(b"\n")?;
    Ok(())
}

/// The line that is printed for an error, with its line feed: `PATH:LINE:COLUMN: error: TEXT`, or
/// `error: TEXT` where the path is empty.
pub fn line(alloc: Global, diag: &Diag) -> Result<Text, NoMemory>
    ensures { IfOk result (λ printed. printed ≡ line_of diag.now) }
{
    let mut printed = Vec::new(alloc);
    push_line(alloc, &mut printed, diag)?;
    Ok(Text::from_vec(printed))
}

/// The lines that are printed for errors, in their order.
pub fn lines(alloc: Global, diags: &[Diag]) -> Result<Text, NoMemory>
    ensures { IfOk result (λ printed. printed ≡ lines_of diags.now) }
{
    let mut printed = Vec::new(alloc);
    for diag in diags {
        push_line(alloc, &mut printed, diag)?;
    }
    Ok(Text::from_vec(printed))
}
