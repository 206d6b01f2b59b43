//! Checks of whole expressions: calls, arguments, and the trees.
#![tactic(auto)]

mod arguments;
mod callee;
mod callees;
mod calls;
mod front;
mod given;
mod postfixes;
mod trees;

pub use postfixes::first_place;
pub use trees::{check_expression, check_postfix};
