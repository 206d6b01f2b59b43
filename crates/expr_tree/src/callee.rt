use dep_key::Name;
use expr_check::Typed;
use type_rules::{Parameters, Ty};

/// What is called.
#[derive(Drop)]
pub enum Callee {
    /// A function or the initializer of a struct: the receiver of a method, the symbol, the parameters and the result.
    Takes(Option<Typed>, Name, Parameters, Ty),

    /// The built-in function `print`.
    Prints,

    /// A value of this type.
    IsValue(Ty),
}
