//! The files of a build folder.

use anyhow::{Error, anyhow};
use drv_outside::{Name, Text, Tree};
use std::alloc::Global;
use tree_mem::MemTree;

/// A file of a build folder.
#[derive(Drop)]
pub struct File {
    pub name: Name,
    pub bytes: Text,
}

/// The files of a build folder, by name.
pub fn files_of(alloc: Global, tree: &mut MemTree) -> Result<Vec<File>, Error> {
    let Ok(names) = tree.names(alloc) else {
        return Err(anyhow!("the names can't be read"));
    };
    let mut files = Vec::new(alloc);
    for name in names {
        let Ok(Some(bytes)) = tree.read_file(alloc, name.as_str()) else {
            return Err(anyhow!("a file can't be read"));
        };
        files.push(File { name, bytes })?;
    }
    Ok(files)
}

/// Whether two folders have the same files.
pub fn have_same_files(files: &[File], others: &[File]) -> bool {
    files.len() == others.len()
        && files.iter().zip(others.iter()).all(|(file, other)| file.name == other.name
            && file.bytes == other.bytes)
}
