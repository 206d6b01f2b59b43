//! Modules as texts.

use crate::cases::Case;
use std::alloc::{AllocError, Global};

/// A source file.
#[derive(Drop)]
pub struct Source {
    pub path: String,
    pub text: String,
}

/// A module's source files, by path.
#[derive(Drop)]
pub struct Module {
    pub sources: Vec<Source>,
}

// What stands before each module among the words.
const MODULE: &str = "--";

impl Module {
    /// A module without files.
    fn new(alloc: Global) -> Module {
        Module {
            sources: Vec::new(alloc),
        }
    }

    /// The module of a case of the table.
    pub fn from_case(alloc: Global, case: &Case) -> Result<Module, AllocError> {
        let mut sources = Vec::new(alloc);
        for (path, text) in case.sources {
            let path = String::from_str(alloc, path)?;
            let text = String::from_str(alloc, text)?;
            sources.push(Source { path, text })?;
        }
        Ok(Module { sources })
    }
}

// The source files of pairs of words.
fn sources_from(alloc: Global, words: &[String]) -> Result<Vec<Source>, AllocError> {
    let mut sources = Vec::new(alloc);
    for pair in words.chunks_exact(2) {
        let path = String::from_str(alloc, pair[0].as_str())?;
        let text = String::from_str(alloc, pair[1].as_str())?;
        sources.push(Source { path, text })?;
    }
    Ok(sources)
}

/// The modules that the words have. What stands before the first `--` is passed over.
pub fn modules_from(alloc: Global, words: &[String]) -> Result<Vec<Module>, AllocError> {
    let mut modules = Vec::new(alloc);
    for part in words.split(|word| word.as_str() == MODULE).skip(1) {
        let sources = sources_from(alloc, part)?;
        modules.push(Module { sources })?;
    }
    Ok(modules)
}
