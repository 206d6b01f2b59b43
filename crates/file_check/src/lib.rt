//! Checks of files: what is said of a file, its code, and what its implementation uses.
#![tactic(auto)]

mod declarations;
mod extensions;
mod files;
mod functions;
mod keys;
mod members;
mod own_types;
mod say;
mod scopes;
mod sites;
mod sizes;
mod standing;
mod structs;
mod values;

pub use files::{CheckedFile, check_file};
