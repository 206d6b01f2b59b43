//! What a declaration means, read with the meanings of the keys that it asks, and the meanings of all keys of a module.
#![tactic(auto)]

mod asked;
mod definitions;
mod fields;
mod found;
mod meanings;
mod memo_answers;
mod module_tasks;
mod params;
mod stored;
mod values;

pub use asked::AskedKeys;
pub use definitions::{definition_meaning, item_meaning};
pub use meanings::{Meanings, settle};
