//! Small modules: up to eight files, whose nodes have up to four keys.

use dep_key::{FileGraph, Key, Keys, Name, NoMemory, Node, Nodes, Path, Text};
use std::alloc::Global;

/// The paths that a module may have.
pub const PATHS: [&str; 8] = ["a", "b", "c", "d", "e", "f", "g", "h"];

/// The names of the keys.
pub const KEYS: [&str; 4] = ["k", "l", "m", "n"];

/// What other files see of a node: nothing, or something.
#[derive(Clone, Copy, Debug, PartialEq, Eq)]
pub enum Print {
    Empty,
    Filled,
}

/// A node: its print, and which keys it uses.
#[derive(Clone, Copy, Debug, PartialEq, Eq)]
pub struct Cell {
    pub print: Print,
    pub uses: [bool; 4],
}

/// A file's nodes, by key.
pub type File = [Option<Cell>; 4];

/// The files of a module, by path.
pub type Module = [Option<File>; 8];

/// A change of a module: what was recorded, what there is now, and which files are first.
#[derive(Clone, Copy, Debug)]
pub struct Change {
    pub before: Module,
    pub now: Module,
    pub first: [bool; 8],
}

/// The path of a file.
pub fn path_at(alloc: Global, file: usize) -> Result<Name, NoMemory> {
    let text = PATHS.get(file).copied().unwrap_or("");
    let name = Name::from_str(alloc, text)?;
    Ok(name)
}

/// The key of a number.
pub fn key_at(alloc: Global, key: usize) -> Result<Key, NoMemory> {
    let text = KEYS.get(key).copied().unwrap_or("");
    let name = Name::from_str(alloc, text)?;
    Ok(Key::top_level(name))
}

fn print_of(alloc: Global, print: Print) -> Result<Text, NoMemory> {
    let mut bytes = Vec::new(alloc);
    if print == Print::Filled {
        bytes.push(b'p')?;
    }
    Ok(Text::from_vec(bytes))
}

fn uses_of(alloc: Global, uses: [bool; 4]) -> Result<Keys, NoMemory> {
    let mut keys = Vec::new(alloc);
    for (at, used) in uses.iter().enumerate() {
        if *used {
            let key = key_at(alloc, at)?;
            keys.push(key)?;
        }
    }
    Ok(Keys::from_vec(keys))
}

fn node_of(alloc: Global, at: usize, cell: Cell) -> Result<Node, NoMemory> {
    let print = print_of(alloc, cell.print)?;
    let uses = uses_of(alloc, cell.uses)?;
    let key = key_at(alloc, at)?;
    Ok(Node { key, print, uses })
}

/// The nodes of a file.
pub fn nodes_of(alloc: Global, file: &File) -> Result<Nodes, NoMemory> {
    let mut nodes = Vec::new(alloc);
    for (at, cell) in file.iter().enumerate() {
        if let Some(cell) = *cell {
            let node = node_of(alloc, at, cell)?;
            nodes.push(node)?;
        }
    }
    Ok(Nodes::from_vec(nodes))
}

/// A file with its path and nodes.
pub fn graph_of(alloc: Global, at: usize, file: &File) -> Result<FileGraph, NoMemory> {
    let nodes = nodes_of(alloc, file)?;
    let text = PATHS.get(at).copied().unwrap_or("");
    let path = Path::from_str(alloc, text)?;
    Ok(FileGraph { path, nodes })
}

/// The file of a module, where it has one.
pub fn file_at(module: &Module, at: usize) -> Option<File> {
    match module.get(at) {
        Some(file) => *file,
        None => None,
    }
}
