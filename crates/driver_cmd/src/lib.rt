//! The top call of the driver: from the words of a command to the build folder and the lines that
//! are printed.
#![tactic(auto)]

mod build;
mod command;
mod laws;
mod top_call;

pub use command::{folder_name, read_request};
pub use drv_outside::{MapFault, Status};
pub use laws::clean_build_is_one;
pub use top_call::{drive, drive_alone};
