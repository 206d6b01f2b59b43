//! What a file provides and uses: the nodes of its keys, which other files see, and that of its implementation.
//!
//! `specs/Graphs.antt` says which nodes there are, and `iface_print` what each of them prints and uses.
#![tactic(auto)]

ghost use Rattle.file_nodes.specs.Laws.{GraphsAreInOrder, NodesHavePrints, NodesHaveUses};

mod graphs;
mod keys;
mod own;
mod prints;
mod uses;

pub use graphs::graph;
pub use swift_ast::FileTree;

/// The nodes of a file are in order. Their prints are those of the file's keys, and what they use are the uses of the file.
pub fn node_laws()
    ensures ordered { GraphsAreInOrder }
    ensures prints { NodesHavePrints }
    ensures uses { NodesHaveUses }
{}
