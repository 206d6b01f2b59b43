use crate::keys::{member, top_level};
use anyhow::{Error, anyhow};
use dep_key::{FileGraph, Key, Keys, Node, Nodes, Path, Text};
use std::alloc::{AllocError, Global};

/// The size of a graph of one file.
#[derive(Clone, Copy)]
pub struct Shape {
    /// How many nodes the file has.
    pub nodes: usize,
    /// How many uses each node has.
    pub uses: usize,
    /// How many names the keys are made of.
    pub identifiers: usize,
}

// A name of eleven letters and digits. Names ascend with their numbers below 10,000,000.
fn name(alloc: Global, number: usize) -> Result<String, AllocError> {
    let text = format!(in alloc; "name{number:07}")?;
    Ok(text)
}

// The key of a node, from 0: each name outside all types, and behind these members, each name of the
// first type, then of the second, and so on.
fn node_key(alloc: Global, shape: Shape, node: usize) -> Result<Key, AllocError> {
    let row = node.checked_div(shape.identifiers).unwrap_or(0);
    let column = node.checked_rem(shape.identifiers).unwrap_or(0);
    let own = name(alloc, column)?;
    if row == 0 {
        return top_level(alloc, own.as_str());
    }
    let context = name(alloc, row - 1)?;
    member(alloc, context.as_str(), own.as_str())
}

// The number of the name of a use, from 0. The names fall into as many equal parts as there are uses,
// and of each part one is used, another one for each node.
fn used(shape: Shape, node: usize, place: usize) -> usize {
    let width = shape.identifiers.checked_div(shape.uses).unwrap_or(0);
    let mixed = node
        .wrapping_mul(7919)
        .wrapping_add(place.wrapping_mul(104729));
    let within = mixed.checked_rem(width).unwrap_or(0);
    place.wrapping_mul(width).wrapping_add(within)
}

fn uses(alloc: Global, shape: Shape, node: usize) -> Result<Keys, AllocError> {
    let mut uses = Vec::new(alloc);
    for place in 0..shape.uses {
        let text = name(alloc, used(shape, node, place))?;
        uses.push(top_level(alloc, text.as_str())?)?;
    }
    Ok(Keys::from_vec(uses))
}

fn node(alloc: Global, shape: Shape, number: usize) -> Result<Node, AllocError> {
    let key = node_key(alloc, shape, number)?;
    let print = format!(in alloc; "internal let {}: Swift.Int", key.name.as_str())?;
    Ok(Node {
        key,
        print: Text::from_vec(print.into_bytes()),
        uses: uses(alloc, shape, number)?,
    })
}

fn nodes(alloc: Global, shape: Shape) -> Result<Nodes, AllocError> {
    let mut nodes = Vec::new(alloc);
    for number in 0..shape.nodes {
        nodes.push(node(alloc, shape, number)?)?;
    }
    Ok(Nodes::from_vec(nodes))
}

// Whether there are enough names for the nodes and for the uses.
fn is_possible(shape: Shape) -> bool {
    let rows = shape.nodes.div_ceil(shape.identifiers.max(1));
    shape.uses <= shape.identifiers && rows <= shape.identifiers.saturating_add(1)
}

/// A graph of this size. Its nodes and their uses are in order.
pub fn graph(alloc: Global, shape: Shape) -> Result<FileGraph, Error> {
    if !is_possible(shape) {
        return Err(anyhow!("there are too few identifiers"));
    }
    Ok(FileGraph {
        path: Path::from_str(alloc, "large.swift")?,
        nodes: nodes(alloc, shape)?,
    })
}
