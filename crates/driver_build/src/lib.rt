//! What a build leaves in the build folder, and how it takes the place of what stands there.
//!
//! Of each file's result the outputs are made (`specs/Outputs.antt`). Those of a module that was compiled whole are, with an open
//! gate, its clean folder (`specs/CleanFolder.antt`). They are put in place so that a crash at any moment leaves a folder that
//! may be trusted (`specs/Replacing.antt`).
#![tactic(auto)]

mod asking;
mod building;
mod file_outputs;
mod laws;
mod module_outputs;
mod outputs_of_build;
mod replacing;
mod results;

pub use asking::asked_of;
pub use building::{Made, make_outputs};
pub use laws::clean_folder_is_one;
pub use outputs_of_build::outputs;
pub use replacing::replace_folder;
pub use results::{FileResult, all_compiled, digests_of};
pub use wave_plan::Asked;
