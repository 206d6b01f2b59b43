//! Builds of large projects, for measuring.

use crate::order::are_writable;
use anyhow::{Error, anyhow};
use dep_graph::Graph;
use dep_key::{FileGraph, Key, Keys, Name, NoMemory, Node, Nodes, Path, Text, digested};
use priors_store::{decode, encode};
use std::alloc::{AllocError, Global};
use wave_core::Core;

/// How many nodes a file of the dense shape has, and how many uses each of them.
const DENSE_NODES: usize = 20;

const DENSE_USES: usize = 20;

/// Who uses whom in a project.
#[derive(Clone, Copy)]
pub enum Shape {
    /// Each file uses one earlier file, each about two later ones.
    Mill,

    /// Each file uses the first.
    Star,

    /// Each file uses the one before.
    Chain,

    /// Each file has twenty nodes with twenty uses of earlier files.
    Dense,
}

impl Shape {
    /// The shape of a word.
    pub fn from_word(word: &str) -> Option<Shape> {
        match word {
            "mill" => Some(Shape::Mill),
            "star" => Some(Shape::Star),
            "chain" => Some(Shape::Chain),
            "dense" => Some(Shape::Dense),
            _ => None,
        }
    }
}

/// What is done with the project.
#[derive(Clone, Copy)]
pub enum Part {
    /// Its files are made, and no more.
    Files,

    /// They are made, written as priors, and read.
    Priors,

    /// They are made and integrated into a graph.
    Graph,

    /// They are integrated, and the last file is built with another print.
    Leaf,

    /// They are integrated, and the first file is built with another print, and then each that is due, with other prints.
    Root,
}

impl Part {
    /// The part of a word.
    pub fn from_word(word: &str) -> Option<Part> {
        match word {
            "files" => Some(Part::Files),
            "priors" => Some(Part::Priors),
            "graph" => Some(Part::Graph),
            "leaf" => Some(Part::Leaf),
            "root" => Some(Part::Root),
            _ => None,
        }
    }
}

fn key(alloc: Global, file: usize, node: usize) -> Result<Key, AllocError> {
    let name = Name::from_string(format!(in alloc; "g{file:04}_{node:02}")?)?;
    Ok(Key::top_level(name))
}

// How many nodes each file has.
fn node_count(shape: Shape) -> usize {
    match shape {
        Shape::Dense => DENSE_NODES,
        _ => 1,
    }
}

// The file that a use of this number is one of, in the dense shape: the first files, or files all over the earlier ones.
fn dense_use(file: usize, number: usize) -> Option<usize> {
    if number >= DENSE_USES || number >= file {
        None
    } else if file < DENSE_USES {
        Some(number)
    } else {
        Some(number.saturating_mul(file) / DENSE_USES)
    }
}

// The file that a file's use of this number is one of; `None` where it has no such use.
fn used_file(shape: Shape, file: usize, number: usize) -> Option<usize> {
    if file == 0 {
        return None;
    }
    match shape {
        Shape::Dense => dense_use(file, number),
        _ if number > 0 => None,
        Shape::Mill => Some(file.saturating_mul(7) / 11),
        Shape::Star => Some(0),
        Shape::Chain => Some(file - 1),
    }
}

fn uses(alloc: Global, shape: Shape, file: usize, node: usize) -> Result<Keys, AllocError> {
    let mut keys = Vec::new(alloc);
    for number in 0..DENSE_USES {
        if let Some(used) = used_file(shape, file, number) {
            keys.push(key(alloc, used, node)?)?;
        }
    }
    Ok(Keys::from_vec(keys))
}

// The nodes of a file, whose prints say the version.
fn file(alloc: Global, shape: Shape, number: usize, version: usize) -> Result<FileGraph, NoMemory> {
    let mut nodes = Vec::new(alloc);
    for node in 0..node_count(shape) {
        let print = format!(in alloc; "internal let g{number:04}_{node:02}: Swift.Int {version}")?;
        nodes.push(Node {
            key: key(alloc, number, node)?,
            print: Text::from_vec(print.into_bytes()),
            uses: uses(alloc, shape, number, node)?,
        })?;
    }
    let made = FileGraph {
        path: Path::from_string(format!(in alloc; "f{number:04}.swift")?),
        nodes: Nodes::from_vec(nodes),
    };
    digested(alloc, &made)
}

fn files(alloc: Global, shape: Shape, count: usize) -> Result<Vec<FileGraph>, NoMemory> {
    let mut files = Vec::new(alloc);
    for number in 0..count {
        files.push(file(alloc, shape, number, 1)?)?;
    }
    Ok(files)
}

// How many files the priors have that are read from bytes.
fn read_back(alloc: Global, bytes: &[u8]) -> Result<usize, Error> {
    let Ok((_, files)) = decode(alloc, bytes) else {
        return Err(anyhow!("the priors aren't read back"));
    };
    Ok(files.len())
}

// How long the priors of some files are, once they are written and read.
fn priors(alloc: Global, files: &[FileGraph]) -> Result<usize, Error> {
    if !are_writable(alloc, files)? {
        return Err(anyhow!("the files can't be written"));
    }
    let Ok(text) = encode(alloc, files) else {
        return Err(anyhow!("out of memory"));
    };
    let bytes = text.as_slice();
    if read_back(alloc, bytes)? == files.len() {
        Ok(bytes.len())
    } else {
        Err(anyhow!("the priors aren't read back"))
    }
}

// Puts a file into a graph.
fn integrate(alloc: Global, graph: &mut Graph, file: FileGraph) -> Result<(), Error> {
    if file.check().is_some() {
        return Err(anyhow!("nodes out of order"));
    }
    match graph.integrate(alloc, file) {
        Ok(_) => Ok(()),
        Err(_) => Err(anyhow!("out of memory")),
    }
}

fn graph(alloc: Global, files: Vec<FileGraph>) -> Result<Graph, Error> {
    let mut graph = Graph::new(alloc);
    for file in files {
        integrate(alloc, &mut graph, file)?;
    }
    Ok(graph)
}

// The number in the path of a file.
fn number_of(path: &Name) -> Result<usize, Error> {
    match path.as_str().get(1..5) {
        Some(digits) => match digits.parse() {
            Ok(number) => Ok(number),
            Err(_) => Err(anyhow!("a file that isn't in the project")),
        },
        None => Err(anyhow!("a file that isn't in the project")),
    }
}

// Builds the next pending file with other prints; false where there is none.
fn build_next(alloc: Global, core: &mut Core, shape: Shape) -> Result<bool, Error> {
    let Ok(next) = core.take(alloc) else {
        return Err(anyhow!("out of memory"));
    };
    let Some(path) = next else {
        return Ok(false);
    };
    let Ok(made) = file(alloc, shape, number_of(&path)?, 2) else {
        return Err(anyhow!("out of memory"));
    };
    if made.check().is_some() {
        return Err(anyhow!("nodes out of order"));
    }
    match core.finish(alloc, made) {
        Ok(_) => Ok(true),
        Err(_) => Err(anyhow!("a running file isn't finished")),
    }
}

// How many files are built where a file changes.
fn built(alloc: Global, shape: Shape, files: Vec<FileGraph>, first: usize) -> Result<usize, Error> {
    let count = files.len();
    let graph = graph(alloc, files)?;
    let mut first_paths = Vec::new(alloc);
    first_paths.push(Name::from_string(format!(in alloc; "f{first:04}.swift")?)?)?;
    let Ok(mut core) = Core::start(alloc, graph, &[], &first_paths) else {
        return Err(anyhow!("out of memory"));
    };
    let mut built = 0usize;
    for _ in 0..count {
        if build_next(alloc, &mut core, shape)? {
            built = built.saturating_add(1);
        }
    }
    if core.is_complete() {
        Ok(built)
    } else {
        Err(anyhow!("a build isn't at its end"))
    }
}

/// Does a part of the work with a project of so many files, and says what came of it.
pub fn worked(alloc: Global, part: Part, shape: Shape, count: usize) -> Result<String, Error> {
    let Ok(files) = files(alloc, shape, count) else {
        return Err(anyhow!("out of memory"));
    };
    let line = match part {
        Part::Files => format!(in alloc; "{} files are made", files.len())?,
        Part::Priors => format!(in alloc; "{} bytes of priors", priors(alloc, &files)?)?,
        Part::Graph => {
            graph(alloc, files)?;
            format!(in alloc; "{count} files are integrated")?
        }
        Part::Leaf => {
            format!(in alloc;
                "{} files are built",
                built(alloc, shape, files, count.saturating_sub(1))?
            )?
        }
        Part::Root => format!(in alloc; "{} files are built", built(alloc, shape, files, 0)?)?,
    };
    Ok(line)
}
