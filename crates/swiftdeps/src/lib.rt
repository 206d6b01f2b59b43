//! Dependency files: what each source file provides and uses, as records of a bitstream.
//!
//! The bytes are `DEPS`, and then a bitstream with one block: its version, the identifiers, and for
//! each file its path, its nodes, their fingerprints and their uses.
#![tactic(auto)]

pub mod codes;
mod collected;
mod fault;
mod identifiers;
mod keys;
mod laws;
mod names;
mod reading;
mod shapes;
mod stage;
mod stream;
mod utf8;
mod writing;

pub use dep_key::{FileGraph, NoMemory, Text};
pub use fault::{DEPENDENCIES_VERSION, DepsFault, Header, PRIORS_VERSION};
pub use laws::{bytes_spell_one_list, no_accepted_list_goes_on_at_the_first_fault, written_is_one};
pub use reading::{decode, read_all};
pub use shapes::is_writable;
pub use writing::{encode, encode_all};
