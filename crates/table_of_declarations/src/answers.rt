//! Answers as they are printed.

use decl_index::{DeclRef, Index, Key, Keys, declared_keys};
use dep_key::Name;
use std::alloc::{AllocError, Global};
use swift_ast::FileTree;
use swift_parser::parse_file;

/// The tree of a file, which has one.
pub fn tree_of(alloc: Global, path: &str, text: &str) -> Result<FileTree, AllocError> {
    match parse_file(alloc, path, text.as_bytes()) {
        Ok(tree) => Ok(tree),
        Err(_) => Err(AllocError),
    }
}

fn trees_of(alloc: Global, files: &[(&str, &str)]) -> Result<Vec<FileTree>, AllocError> {
    let mut trees = Vec::new(alloc);
    for (path, text) in files {
        let tree = tree_of(alloc, path, text)?;
        trees.push(tree)?;
    }
    Ok(trees)
}

/// The index of files that are given by their paths and texts, each of which has a tree.
pub fn index_of(alloc: Global, files: &[(&str, &str)]) -> Result<Index, AllocError> {
    let trees = trees_of(alloc, files)?;
    match Index::new(alloc, trees) {
        Ok(index) => Ok(index),
        Err(_) => Err(AllocError),
    }
}

fn shown_references(alloc: Global, references: &[DeclRef]) -> Result<String, AllocError> {
    let mut shown = String::new(alloc);
    for at in references {
        let next = format!(in alloc; " {}.{}", at.file, at.place)?;
        shown.push_str(next.as_str())?;
    }
    if shown.is_empty() {
        return String::from_str(alloc, " none");
    }
    Ok(shown)
}

// A key and the declarations that have it.
fn shown_answer(alloc: Global, index: &Index, key: &Key) -> Result<String, AllocError> {
    let found = shown_references(alloc, index.providers(key))?;
    format!(in alloc; "{key}:{found}")
}

// A line for each key of a declaration.
fn shown_keys(
    alloc: Global,
    index: &Index,
    path: &str,
    place: usize,
    keys: &Keys,
) -> Result<String, AllocError> {
    let mut shown = String::new(alloc);
    for key in keys.as_slice() {
        let answer = shown_answer(alloc, index, key)?;
        let line = format!(in alloc; "{path} {place} {answer}\n")?;
        shown.push_str(line.as_str())?;
    }
    Ok(shown)
}

/// A line for each key of each declaration of a file.
pub fn shown_file(alloc: Global, index: &Index, file: &FileTree) -> Result<String, AllocError> {
    let Ok(declared) = declared_keys(alloc, file) else {
        return Err(AllocError);
    };
    let mut shown = String::new(alloc);
    for (place, keys) in declared.iter().enumerate() {
        let lines = shown_keys(alloc, index, file.path.as_str(), place, keys)?;
        shown.push_str(lines.as_str())?;
    }
    Ok(shown)
}

/// The declarations that have a name at the top level.
pub fn shown_providers(alloc: Global, index: &Index, name: &str) -> Result<String, AllocError> {
    let key = Key::top_level(Name::from_str(alloc, name)?);
    shown_answer(alloc, index, &key)
}
