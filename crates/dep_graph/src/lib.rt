//! The module dependency graph: the nodes of each source file, and which files use a key.
#![tactic(auto)]

mod arcs;
mod changes;
mod graph;

pub use changes::{changed_keys, moved_tells_prints};
pub use dep_key::{FileGraph, Key, Name, NoMemory, Node, Nodes, Path};
pub use graph::Graph;
