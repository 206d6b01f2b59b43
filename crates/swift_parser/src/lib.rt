//! The parser of the Swift subset that the driver compiles.
//!
//! [`parse_file`] gives the one tree of a source file, or its first fault. The grammar stands in
//! `docs/LANGUAGE.md`, and as definitions in the crate `swift_ast`.
#![tactic(auto)]

mod declarations;
mod expressions;
mod faults;
mod file;
mod statements;

pub use faults::ParseFault;
pub use file::{MAX_LEVELS, parse_file};
pub use swift_ast::{FileTree, NoMemory, Text};
pub use swift_token::{LexFault, LexWhat, MAX_FILE_BYTES};
