//! The module text and the texts of which it is made.
//!
//! A compiled file leaves a partial text, with a line for each declaration that others may see, and
//! an object text, with its code.
#![tactic(auto)]

mod by_path;
mod ends;
mod image_text;
mod laws;
mod lines;
mod linking;
mod module;
mod object;
mod symbols;

pub use drv_outside::{NoMemory, Text};
pub use ends::MergeEnd;
pub use image_text::image;
pub use laws::{linking_is_of_any_order, merged_texts_are_one};
pub use module::{is_partial, merged_module};
pub use object::is_object;
