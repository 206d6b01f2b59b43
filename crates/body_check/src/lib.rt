//! Checks of bodies and declarations: what is said of a file, its code, and what it asks, by one definition.
//!
//! The definitions stand in `specs/`: statements (`Statements.antt`), declarations (`Declarations.antt`), and what a file gives
//! (`Files.antt`), over those of `expr_check`.
#![tactic(auto)]

mod blocks;
mod control;
mod functions;
mod locals;
mod reachability;
mod say;
mod statements;
mod targets;

ghost use Rattle.body_check.specs.Files.{SameMeaningsGiveTheSame, MadeIsTheFile};

pub use functions::{read_function, result_type};
pub use locals::{annotated, fitting};
pub use reachability::falls_through;
pub use statements::read_block;

/// What checking a file gives depends on the meanings of the keys that it asks, and on nothing else; a program that enters what it
/// says and what it uses into two sets, as it goes, ends with the errors and the uses of the file.
pub fn file_laws()
    ensures same { SameMeaningsGiveTheSame }
    ensures made { MadeIsTheFile }
{}
