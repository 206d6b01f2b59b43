//! What failed, as it is told on standard error.

use std::alloc::{AllocError, AllocFailed, Global};
use std::fmt::{Display, Formatter};
use std::io::ErrorKind;
use std::{fmt, io};

// What stands between the system's words for an error and its number.
const ERROR_NUMBER: &str = " (os error ";

/// A call of the system that failed.
#[derive(Drop)]
pub struct Failure {
    kind: ErrorKind,

    // The path that the call was about, and why it failed. None where there was no memory to say it.
    told: Option<String>,
}

// The system's words for an error, without its number.
fn cause(words: &str) -> &str {
    match words.split_once(ERROR_NUMBER) {
        Some((cause, _)) => cause,
        None => words,
    }
}

// The path, and why the call failed.
fn told(alloc: Global, path: &str, error: &io::Error) -> Result<String, AllocError> {
    let shown = if path.is_empty() { "." } else { path };
    let words = format!(in alloc; "{error}")?;
    format!(in alloc; "{shown}: {}", cause(words.as_str()))
}

impl Failure {
    /// What failed at a path below the project folder, the empty path being the project folder itself.
    pub fn at(alloc: Global, path: &str, error: io::Error) -> Failure {
        Failure {
            kind: error.kind(),
            told: told(alloc, path, &error).ok(),
        }
    }

    /// Whether memory ran out.
    pub fn is_no_memory(&self) -> bool {
        self.kind == ErrorKind::OutOfMemory
    }
}

impl From<AllocError> for Failure {
    fn from(_: AllocError) -> Failure {
        Failure {
            kind: ErrorKind::OutOfMemory,
            told: None,
        }
    }
}

impl<T: Drop> From<AllocFailed<T>> for Failure {
    fn from(refused: AllocFailed<T>) -> Failure {
        Failure::from(AllocError::from(refused))
    }
}

impl Display for Failure {
    fn fmt<W: fmt::Write>(&self, f: &mut Formatter<W>) -> fmt::Result {
        match &self.told {
            Some(told) => f.write_str(told.as_str()),
            None => Display::fmt(&self.kind, f),
        }
    }
}
