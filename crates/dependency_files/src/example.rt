use crate::keys::{source_file, top_level};
use dep_key::{FileGraph, Key, Keys, Node, Nodes, Path, Text};
use std::alloc::{AllocError, Global};

fn node(alloc: Global, key: Key, print: &str, names: &[&str]) -> Result<Node, AllocError> {
    let mut uses = Vec::new(alloc);
    for name in names {
        uses.push(top_level(alloc, name)?)?;
    }
    Ok(Node {
        key,
        print: Text::from_slice(alloc, print.as_bytes())?,
        uses: Keys::from_vec(uses),
    })
}

/// The graph of b.swift with the line `let two = one`.
pub fn graph(alloc: Global) -> Result<FileGraph, AllocError> {
    let two = top_level(alloc, "two")?;
    let file = source_file(alloc, "b.swift")?;
    let mut nodes = Vec::new(alloc);
    nodes.push(node(
        alloc,
        two,
        "internal let two: Swift.Int",
        ["one", "one@b.swift", "two"].as_slice(),
    )?)?;
    nodes.push(node(alloc, file, "", ["one", "one@b.swift"].as_slice())?)?;
    Ok(FileGraph {
        path: Path::from_str(alloc, "b.swift")?,
        nodes: Nodes::from_vec(nodes),
    })
}
