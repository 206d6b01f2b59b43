use anyhow::{Error, anyhow};
use dep_key::FileGraph;
use std::alloc::Global;
use swiftdeps::{decode, encode, is_writable, read_all};

/// How many nodes and uses there are.
#[derive(Clone, Copy, Default)]
pub struct Counts {
    pub nodes: u128,
    pub uses: u128,
}

impl Counts {
    /// Those of both.
    pub fn and(self, other: Counts) -> Counts {
        Counts {
            nodes: self.nodes.wrapping_add(other.nodes),
            uses: self.uses.wrapping_add(other.uses),
        }
    }
}

/// The dependency file of a graph.
pub fn bytes_of(alloc: Global, graph: &FileGraph) -> Result<Vec<u8>, Error> {
    if !is_writable(graph) {
        return Err(anyhow!("the graph can't be written"));
    }
    match encode(alloc, graph) {
        Ok(text) => Ok(text.into_vec()),
        Err(_) => Err(anyhow!("out of memory")),
    }
}

/// The graph that a dependency file holds.
pub fn graph_in(alloc: Global, bytes: &[u8]) -> Result<FileGraph, Error> {
    match decode(alloc, bytes) {
        Ok(graph) => Ok(graph),
        Err(fault) => Err(anyhow!("the file isn't read: {fault:?}")),
    }
}

fn counts_of(graph: &FileGraph) -> Counts {
    let mut counts = Counts::default();
    for node in graph.nodes.as_slice() {
        counts = counts.and(Counts {
            nodes: 1,
            uses: node.uses.as_slice().len() as u128,
        });
    }
    counts
}

/// How many nodes and uses the files have that the bytes hold.
pub fn count(alloc: Global, bytes: &[u8]) -> Result<Counts, Error> {
    let files = match read_all(alloc, bytes) {
        Ok((_, files)) => files,
        Err(fault) => return Err(anyhow!("the file isn't read: {fault:?}")),
    };
    let mut counts = Counts::default();
    for graph in &files {
        counts = counts.and(counts_of(graph));
    }
    Ok(counts)
}
