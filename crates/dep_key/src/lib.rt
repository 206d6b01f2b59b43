//! What all crates of the driver share: paths, names and texts, which contracts see as lists of bytes; keys, and the
//! graph of what a file provides and uses, with its digests; the number of a file, and want of memory.
#![tactic(auto)]

mod byte_list;
mod characters;
mod compact_characters;
mod digests;
mod graph;
mod key;
mod key_builders;
mod key_shapes;
mod kind;
mod laws;
mod lists;
mod no_memory;
mod order;
mod printed;
mod texts;

pub use digests::digested;
pub use graph::{FileGraph, Node, Unsorted};
pub use key::Key;
pub use key_builders::key_name;
pub use kind::{Aspect, Kind};
pub use laws::{keys_are_ordered, moved_keys_are_told};
pub use lists::{Keys, Nodes};
pub use no_memory::NoMemory;
pub use texts::{Name, Path, Text};

/// The place of a source file in the listing of the sources by path, from 0.
pub type FileNo = u32;

#[cfg(test)]
mod tests;
