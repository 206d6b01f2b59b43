//! The output file map: which file of the build folder each output of a build goes to.
#![tactic(auto)]

mod assigning;
mod ends;
mod faults;
mod known;
mod lookup;
mod names;
mod reading;
mod repeated;
mod table;

pub use assigning::assign;
pub use drv_outside::MapFault;
pub use ends::MapEnd;
pub use names::{FileNames, Names};
pub use reading::read;
pub use table::FileMap;
