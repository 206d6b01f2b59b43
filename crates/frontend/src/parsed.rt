//! A source file once it was read.

ghost use Rattle.std.specs.Prelude.{◌≡◌, IfOk};
ghost use Rattle.frontend.specs.Parsing.{IsParsed, parsed_path};

use crate::faults::fault_error;
use dep_key::{NoMemory, Path};
use diag_text::Diag;
use std::alloc::Global;
use swift_ast::FileTree;
use swift_parser::parse_file;

/// A source file once it was read.
#[derive(Drop)]
pub enum Parsed {
    /// Its tree.
    Tree(FileTree),

    /// The error of a text without a tree.
    NoTree(Diag),
}

/// Reads the text of a source file: to its one tree, or to the error that tells its first fault.
pub fn parse(alloc: Global, path: Path, text: &[u8]) -> Result<Parsed, NoMemory>
    ensures file { IfOk result (λ file. IsParsed path text.now file) }
    ensures path { IfOk result (λ file. parsed_path file ≡ path) }
{
    match parse_file(alloc, path.as_str(), text) {
        Ok(tree) => Ok(Parsed::Tree(tree)),
        Err(fault) => {
            let error = fault_error(alloc, path, &fault)?;
            Ok(Parsed::NoTree(error))
        }
    }
}
