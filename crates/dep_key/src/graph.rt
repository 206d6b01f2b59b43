ghost use Rattle.std.specs.Prelude.{◌≡◌, IfSome, IfNone};
ghost use Rattle.std.specs.Cmp.{partial_equiv_from_equiv};
ghost use Rattle.dep_key.specs.GraphOrder.{AreInOrder, IsFirstUnsorted};
ghost use Rattle.dep_key.specs.Sameness.{is_same_node, is_same_node_equiv, is_same_graph, is_same_graph_equiv};

use crate::{Key, Keys, Nodes, Path, Text};
use std::alloc::AllocError;

/// What one file provides under a key, and what that rests on.
#[derive(Debug, Drop)]
pub struct Node {
    pub key: Key,
    /// What other files see of it: where the print is the same, they need not be compiled again.
    pub print: Text,
    /// The keys that were asked for it.
    pub uses: Keys,
}

/// What one source file provides and uses.
#[derive(Debug, Drop)]
pub struct FileGraph {
    pub path: Path,
    pub nodes: Nodes,
}

/// The place of a node that is out of order.
#[derive(Clone, Copy, Debug, PartialEq, Eq)]
pub struct Unsorted {
    pub at: usize,
}

impl Clone for Node {
    ghost is_clone = { λ node copy. copy ≡ node };

    fn clone(&self) -> Result<Node, AllocError> {
        let key = self.key.clone()?;
        let print = self.print.clone()?;
        let uses = self.uses.clone()?;
        Ok(Node { key, print, uses })
    }
}

impl Clone for FileGraph {
    ghost is_clone = { λ graph copy. copy ≡ graph };

    fn clone(&self) -> Result<FileGraph, AllocError> {
        let path = self.path.clone()?;
        let nodes = self.nodes.clone()?;
        Ok(FileGraph { path, nodes })
    }
}

impl PartialEq for Node {
    ghost eq = { is_same_node };

    ghost laws = { partial_equiv_from_equiv is_same_node_equiv };

    fn eq(&self, other: &Node) -> bool {
        let is_same_key = self.key == other.key;
        let is_same_print = self.print == other.print;
        let are_same_uses = self.uses == other.uses;
        is_same_key && (is_same_print && are_same_uses)
    }
}

impl Eq for Node {
    ghost laws = { is_same_node_equiv };
}

impl PartialEq for FileGraph {
    ghost eq = { is_same_graph };

    ghost laws = { partial_equiv_from_equiv is_same_graph_equiv };

    fn eq(&self, other: &FileGraph) -> bool {
        let is_same_path = self.path == other.path;
        let are_same_nodes = self.nodes == other.nodes;
        is_same_path && are_same_nodes
    }
}

impl Eq for FileGraph {
    ghost laws = { is_same_graph_equiv };
}
