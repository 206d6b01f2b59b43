//! Whether a file graph can be written.

ghost use Rattle.std.specs.Prelude.{◌≡◌, ◌↔◌, IsTrue};
ghost use Rattle.std.specs.List.{list_all};
ghost use Rattle.dep_key.specs.KeyShapes.{has_shape};
ghost use Rattle.swiftdeps.specs.Written.{is_shaped, IsWritable};

use dep_key::{FileGraph, Key, Node};

fn are_keys_shaped(keys: &[Key]) -> bool
    ensures { result ≡ list_all has_shape keys.now }
{
    for key in keys {
        if !key.has_shape() {
            return false;
        }
    }
    true
}

fn is_shaped(node: &Node) -> bool
    ensures { result ≡ is_shaped node.now }
{
    node.key.has_shape() && are_keys_shaped(node.uses.as_slice())
}

fn are_nodes_shaped(nodes: &[Node]) -> bool
    ensures { result ≡ list_all is_shaped nodes.now }
{
    for node in nodes {
        if !is_shaped(node) {
            return false;
        }
    }
    true
}

/// Whether the path of a file graph is filled, its keys have their shape, and its nodes and their
/// uses are in order. Takes no memory.
pub fn is_writable(graph: &FileGraph) -> bool
    ensures { IsTrue result ↔ IsWritable graph.now }
{
    if graph.path.as_str().is_empty() || graph.check().is_some() {
        return false;
    }
    are_nodes_shaped(graph.nodes.as_slice())
}
