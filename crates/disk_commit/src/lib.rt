//! Changes of a build folder: shutting and opening its gate, removing names, writing files, and all of
//! it in the order in which a crash at any moment does no harm. Each call says which list of calls it makes: after an `Ok` all are
//! done, after an `Err` the first ones are and one failed.
#![tactic(auto)]

mod change;
mod files;
mod laws;

pub use change::change_folder;
pub use files::{File, commit, place, sweep, withdraw};
pub use laws::change_is_safe;

#[cfg(test)]
mod tests;
