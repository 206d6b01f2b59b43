//! Which key a file of a build in waves is traced from (`docs/WAVES.md`).
#![tactic(auto)]

mod noting;
mod trace;
mod tracing;

pub use dep_graph::Graph;
pub use dep_key::{Key, Name, NoMemory, Node};
pub use noting::Origin;
pub use trace::{Trace, traces_follow};
