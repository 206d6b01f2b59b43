//! The default names of a build's outputs: the stem of a source's path, and the names that modules may
//! have.
#![tactic(auto)]

mod laws;
mod module_names;
mod stems;

pub use laws::stem_laws;
pub use module_names::{MAX_MODULE_NAME_BYTES, is_module_name};
pub use stems::{ENDING_BYTES, SLASH, TILDE, object_name, stem_of};
