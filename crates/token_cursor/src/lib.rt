//! The tokens of a file of the Swift subset on their way to a tree: what is still to be read, what a rule of
//! the grammar asks of the next token, and why a rule gives no tree.
//!
//! What a function says that reads a rule stands in `specs/Reading.antt`, over the forms of `grammar`.
#![tactic(auto)]

mod cursor;
mod stop;
mod token_class;

pub use cursor::{TokenCursor, terminal};
pub use stop::Stop;
pub use token_class::TokenClass;
