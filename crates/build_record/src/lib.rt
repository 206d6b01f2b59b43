//! The build record: what a build keeps of its sources for the next one, as JSON.
//!
//! It is compact JSON, with the members of each object in byte order: `files` has for each source,
//! under its path, `[secs,nanos,size,"clean"]` with the stamp that was built, or `"dirty"` in place
//! of `"clean"` where the file had errors. `map` is the text of the output file map, or null,
//! `module` is the module's name, and `version` is 1.
#![tactic(auto)]

mod decoding;
mod encoding;
mod files;
mod record;

pub use decoding::decode;
pub use drv_outside::RecordFault;
pub use encoding::encode;
pub use record::{BuildRecord, FileState, RecordEnd};
