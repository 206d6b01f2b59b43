//! What is timed: the index of a project, and the providers of each of its keys.

use crate::answers::tree_of;
use anyhow::{Error, anyhow};
use decl_index::{Index, Keys, declared_keys};
use std::alloc::{AllocError, Global};
use swift_ast::FileTree;

/// The most files of a project.
const MOST_FILES: usize = 100_000;

// A struct with members.
fn struct_text(alloc: Global, number: usize) -> Result<String, AllocError> {
    format!(in alloc;
        "struct Shape{number} {{
  let width: Int
  var height: Int
  private let corners: Int
  func area() -> Int {{ return width * height }}
  func scaled(by factor: Int) -> Int {{ return width * factor }}
}}
"
    )
}

// An extension of the struct of the file before.
fn extension_text(alloc: Global, number: usize) -> Result<String, AllocError> {
    let before = number.saturating_sub(1);
    format!(in alloc;
        "extension Shape{before} {{
  func area{number}() -> Int {{ return area() }}
  private func limit{number}() -> Int {{ return 1 }}
}}
"
    )
}

// Names at the top level, one of them for the file alone.
fn names_text(alloc: Global, number: usize) -> Result<String, AllocError> {
    format!(in alloc;
        "let limit{number} = 1
private let limit = 2
func scale{number}(by factor: Int) -> Int {{ return factor }}
typealias Form{number} = Shape{number}
"
    )
}

fn text_of(alloc: Global, number: usize) -> Result<String, AllocError> {
    let own = struct_text(alloc, number)?;
    let extended = extension_text(alloc, number)?;
    let names = names_text(alloc, number)?;
    format!(in alloc; "{own}{extended}{names}")
}

fn trees(alloc: Global, files: usize) -> Result<Vec<FileTree>, AllocError> {
    let mut trees = Vec::new(alloc);
    for number in 0..files {
        let path = format!(in alloc; "shape{number}.swift")?;
        let text = text_of(alloc, number)?;
        let tree = tree_of(alloc, path.as_str(), text.as_str())?;
        trees.push(tree)?;
    }
    Ok(trees)
}

// How many providers the keys of a declaration have.
fn providers_of(index: &Index, keys: &Keys) -> usize {
    let mut count = 0usize;
    for key in keys.as_slice() {
        count = count.saturating_add(index.providers(key).len());
    }
    count
}

fn providers_in(alloc: Global, index: &Index, file: &FileTree) -> Result<usize, Error> {
    let Ok(declared) = declared_keys(alloc, file) else {
        return Err(anyhow!("out of memory"));
    };
    let mut count = 0usize;
    for keys in &declared {
        count = count.saturating_add(providers_of(index, keys));
    }
    Ok(count)
}

/// Makes a project of so many files and its index, and answers how many providers all its keys have
/// together.
pub fn providers(alloc: Global, files: usize) -> Result<usize, Error> {
    if files > MOST_FILES {
        return Err(anyhow!("too many files"));
    }
    let trees = trees(alloc, files)?;
    let Ok(index) = Index::new(alloc, trees) else {
        return Err(anyhow!("out of memory"));
    };
    let mut count = 0usize;
    for file in index.files() {
        count = count.saturating_add(providers_in(alloc, &index, file)?);
    }
    Ok(count)
}
