ghost use Rattle.std.specs.Prelude.{◌≡◌, [], ◌∷◌, IfOk, string_bytes};
ghost use Rattle.project_sources.specs.Refusals.{unplaced, not_plain_error, too_many_error, too_large_error, not_plain_errors, listing_errors};
ghost use Rattle.project_sources.specs.Parsed.{entry_paths};

use diag_text::Diag;
use drv_outside::{Entry, NoMemory, Path, Text, is_plain_path};
use std::alloc::Global;

/// A project may have this many source files.
pub const MOST_SOURCES: usize = 2000;

/// The sources of a project may hold this many bytes together.
pub const MOST_SOURCE_BYTES: usize = 16_777_216;

// An error without a place.
fn unplaced(alloc: Global, text: String) -> Result<Diag, NoMemory>
    ensures { IfOk result (λ error. error ≡ unplaced (string_bytes text)) }
{
    Ok(Diag {
        path: Path::from_str(alloc, "")?,
        line: 0,
        column: 0,
        text: Text::from_vec(text.into_bytes()),
    })
}

fn not_plain_error(alloc: Global, path: &str) -> Result<Diag, NoMemory>
    ensures { IfOk result (λ error. error ≡ not_plain_error path.now) }
{
    let text = format!(in alloc; "'{path}' is not a plain path")?;
    let error = unplaced(alloc, text)?;
    Ok(error)
}

fn too_many_error(alloc: Global, count: usize) -> Result<Diag, NoMemory>
    ensures { IfOk result (λ error. error ≡ too_many_error count) }
{
    let text = format!(in alloc; "{count} source files, at most {MOST_SOURCES}")?;
    let error = unplaced(alloc, text)?;
    Ok(error)
}

fn too_large_error(alloc: Global) -> Result<Diag, NoMemory>
    ensures { IfOk result (λ error. error ≡ too_large_error) }
{
    let text = format!(in alloc; "source files hold more than {MOST_SOURCE_BYTES} bytes")?;
    let error = unplaced(alloc, text)?;
    Ok(error)
}

/// The errors of sources that hold too many bytes.
pub fn too_large_errors(alloc: Global) -> Result<Vec<Diag>, NoMemory>
    ensures { IfOk result (λ errors. errors.items ≡ too_large_error ∷ []) }
{
    let mut errors = Vec::new(alloc);
    errors.push(too_large_error(alloc)?)?;
    Ok(errors)
}

fn not_plain_errors(alloc: Global, entries: &[Entry]) -> Result<Vec<Diag>, NoMemory>
    ensures { IfOk result (λ errors. errors.items ≡ not_plain_errors (entry_paths entries.now)) }
{
    let mut errors = Vec::new(alloc);
    for entry in entries {
        if !is_plain_path(entry.path.as_str()) {
            errors.push(not_plain_error(alloc, entry.path.as_str())?)?;
        }
    }
    Ok(errors)
}

/// The errors of a list of sources: one where there are more than `MOST_SOURCES`, else one for each
/// path that isn't plain.
pub fn listing_errors(alloc: Global, entries: &[Entry]) -> Result<Vec<Diag>, NoMemory>
    ensures { IfOk result (λ errors. errors.items ≡ listing_errors (entry_paths entries.now)) }
{
    if entries.len() <= MOST_SOURCES {
        let errors = not_plain_errors(alloc, entries)?;
        return Ok(errors);
    }
    let mut errors = Vec::new(alloc);
    errors.push(too_many_error(alloc, entries.len())?)?;
    Ok(errors)
}
