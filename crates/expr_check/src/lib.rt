//! Checks of expressions: what is said of them, the type of each and its code, and the keys that are asked, by one definition.
//!
//! The definitions stand in `specs/`: what names of types mean (`Types.antt`), names, members, operators and calls
//! (`Expressions.antt`), and the trees of expressions (`Phrases.antt`). With `emits` off, a scope serves to infer the type of an
//! initial value, and no layout is asked for.
#![tactic(auto)]

mod laws;
mod line;
mod log;
mod members;
mod named;
mod names;
mod operators;
mod place;
mod say;
mod scope;
mod typed;
mod types;

pub use laws::{expression_laws, worked_expressions};
pub use line::Line;
pub use log::Log;
pub use members::{member_named, member_value};
pub use named::Named;
pub use names::{
    copied_type, is_print, local_named, local_value, name_check, name_of, name_value, named_in,
    one_step, property, self_value, value_keys, value_of,
};
pub use operators::{binary, converted, unary};
pub use place::Place;
pub use say::{
    say_about, say_has_errors, say_no_conversion, say_not_a_value, say_not_callable, say_not_found,
    say_wrong_arguments,
};
pub use scope::{Local, Scope};
pub use typed::Typed;
pub use types::{
    Found, fetch, laid_out, look_up, type_named, type_written, usable, valued, written_name,
};
