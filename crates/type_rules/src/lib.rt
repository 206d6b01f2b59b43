//! The rules of types for a Swift subset: which types there are and how they are shown, what a key of
//! a declaration means, the types that operators give, and the size of a type in words.
#![tactic(auto)]

mod answers;
mod laws;
mod lists;
mod meaning;
mod operators;
mod sizes;
mod ty;

pub use answers::Answers;
pub use dep_key::{Key, Name, NoMemory};
pub use laws::{meanings_equal_or_differ, operators_are_rows, types_equal_or_differ};
pub use lists::{Fields, Parameters};
pub use meaning::{Field, Meaning, Parameter};
pub use operators::{binary, unary};
pub use sizes::words;
pub use ty::Ty;

#[cfg(test)]
mod tests;
