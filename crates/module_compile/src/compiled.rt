use dep_key::{FileGraph, Text};
use diag_text::Diag;
use sqlite_items::Items;

/// What a file of a module comes to, and what it provides and uses.
#[derive(Debug, Drop)]
pub struct CompiledFile {
    pub outcome: Outcome,
    /// The nodes of its keys, and that of its implementation.
    pub graph: FileGraph,
}

/// What a file of a module comes to.
#[derive(Debug, Drop)]
pub enum Outcome {
    /// The texts of a file without errors.
    Texts(FileTexts),

    /// The errors, of which there is one at least, by line, column and text.
    Errors(Items<Diag>),
}

/// The texts of a file without errors.
#[derive(Debug, Drop)]
pub struct FileTexts {
    /// Its code.
    pub object: Text,
    /// What other files see of it, as its part of the merged module.
    pub partial: Text,
}
