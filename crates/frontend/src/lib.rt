//! The frontend's first half: a source text has its one tree, or the error that tells its first fault (`specs/Parsing.antt`).
#![tactic(auto)]

mod faults;
mod parsed;

pub use parsed::{Parsed, parse};
