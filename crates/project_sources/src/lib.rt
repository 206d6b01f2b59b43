//! The sources of a project: their list, their texts, and the trees of these.
//!
//! Sources are refused for the errors of their list, for the bytes that they hold, or for those files that have no tree
//! (`specs/Refusals.antt`); else they have trees.
#![tactic(auto)]

mod laws;
mod listing;
mod reading;
mod sources;

pub use laws::sources_are_one;
pub use listing::{MOST_SOURCE_BYTES, MOST_SOURCES};
pub use reading::{Listing, Sources, list_sources, read_sources};
