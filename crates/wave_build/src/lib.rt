//! Builds the files of a module that are due, in waves, on one thread.
//!
//! A file is due if it is one of the first, or if it used a key which moved in a file that was built or removed. Each
//! file that is due is compiled once (`specs/Built.antt`).
#![tactic(auto)]

mod building;
mod built;
mod ending;
mod naming;

pub use building::build_files;
pub use built::BuiltFiles;
