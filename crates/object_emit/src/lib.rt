//! Object texts: the code of checked bodies for a stack machine of words.
//!
//! Emission gives each local its slot and each jump its label, and asks how large the types are. `docs/OBJECTS.md` says
//! what each construct of the language becomes.
#![tactic(auto)]

mod emission;
mod emitter;
mod instruction;
mod laws;
mod layouts;
mod objects;
mod printing;

pub use dep_key::{Name, NoMemory, Path, Text};
pub use instruction::Instruction;
pub use laws::{labels_are_set, slots_are_apart};
pub use objects::object;
pub use type_rules::{Answers, Ty};
pub use typed_code::{Function, Initial, Operator, Step, Unit};
