//! The files of a module, compiled: what each comes to, and what it provides and uses.
//!
//! A file comes to its errors, or where it has none to its object text and its partial text (`specs/Compiled.antt`). Its graph
//! is there with errors too.
#![tactic(auto)]

mod compiled;
mod compiling;

pub use compiled::{CompiledFile, FileTexts, Outcome};
pub use compiling::{compile_file, compile_module};
