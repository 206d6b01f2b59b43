//! How far a build in waves is: the graph as it is now, the keys that have changed, and which files are
//! pending, running and done (`docs/WAVES.md`). Files are known by their paths.
#![tactic(auto)]

mod events;
mod joining;
mod opening;
mod stages;
mod state;
mod waking;

pub use dep_graph::Graph;
pub use dep_key::{FileGraph, Key, Name, NoMemory, Node, Nodes};
pub use events::{FileEvent, FinishFault};
pub use stages::Stage;
pub use state::Core;
