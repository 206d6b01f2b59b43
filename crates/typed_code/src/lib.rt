//! Checked bodies as structured code: what a frontend found of the bodies of a file, in order of evaluation.
//!
//! A checked body is a list of steps in the order in which they are done. Control is nested, as in WebAssembly, and
//! nothing is laid out yet: steps speak of types, of keys' names and of the numbers of locals. Emission gives each
//! local its slot and each jump its label.
#![tactic(auto)]

mod step;
mod units;

pub use dep_key::{Name, NoMemory, Text};
pub use step::{Branch, Operator, Step};
pub use type_rules::Ty;
pub use units::{Function, Initial, Unit};
