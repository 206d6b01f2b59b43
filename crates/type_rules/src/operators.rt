//! The types that operators give.

ghost use Rattle.std.specs.Prelude.{◌≡◌};
ghost use Rattle.type_rules.specs.Operators.{binary_type, unary_type, binary_rows, result_in};
ghost use Rattle.type_rules.specs.declared.ty.Ty.TheVariants as ty;

use crate::Ty;

/// What a binary operator gives for two integers.
#[tactic(auto, unfolding(crate::specs::Operators::binary_rows))]
fn of_integers(op: &str) -> Option<Ty>
    ensures { result ≡ result_in binary_rows op.now ty.Int }
{
    match op {
        "+" | "-" | "*" | "/" | "%" => Some(Ty::Int),
        "<" | "<=" | ">" | ">=" | "==" | "!=" => Some(Ty::Bool),
        _ => None,
    }
}

/// What a binary operator gives for two strings.
#[tactic(auto, unfolding(crate::specs::Operators::binary_rows))]
fn of_strings(op: &str) -> Option<Ty>
    ensures { result ≡ result_in binary_rows op.now ty.String }
{
    match op {
        "+" => Some(Ty::String),
        "<" | "<=" | ">" | ">=" | "==" | "!=" => Some(Ty::Bool),
        _ => None,
    }
}

/// What a binary operator gives for two Booleans.
#[tactic(auto, unfolding(crate::specs::Operators::binary_rows))]
fn of_booleans(op: &str) -> Option<Ty>
    ensures { result ≡ result_in binary_rows op.now ty.Bool }
{
    match op {
        "==" | "!=" | "&&" | "||" => Some(Ty::Bool),
        _ => None,
    }
}

/// The type that a binary operator gives for operands of these types, and `None` where there is no such
/// operator. Takes no memory.
#[tactic(auto, unfolding(crate::specs::Operators::binary_rows))]
pub fn binary(op: &str, left: &Ty, right: &Ty) -> Option<Ty>
    ensures { result ≡ binary_type op.now left.now right.now }
{
    if left != right {
        return None;
    }
    match left {
        Ty::Int => of_integers(op),
        Ty::String => of_strings(op),
        Ty::Bool => of_booleans(op),
        Ty::Void | Ty::Struct(_) => None,
    }
}

/// The type that an operator in front of an operand of this type gives, and `None` where there is no such
/// operator. Takes no memory.
#[tactic(auto, unfolding(crate::specs::Operators::unary_rows))]
pub fn unary(op: &str, operand: &Ty) -> Option<Ty>
    ensures { result ≡ unary_type op.now operand.now }
{
    match (op, operand) {
        ("-", Ty::Int) => Some(Ty::Int),
        ("!", Ty::Bool) => Some(Ty::Bool),
        _ => None,
    }
}
