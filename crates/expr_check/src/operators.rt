//! Operators, and values where one of a type is wanted.

ghost use Rattle.std.specs.Prelude.{◌≡◌, ◌++◌, IfOk, OnOk};
ghost use Rattle.checks.specs.Logs.{made};
ghost use Rattle.expr_check.specs.Messages.{orders};
ghost use Rattle.expr_check.specs.Expressions as spec;

use crate::say::{say_no_binary, say_no_conversion, say_no_unary};
use crate::{Log, Place, Typed};
use dep_key::NoMemory;
use sqlite_items::Items;
use std::alloc::Global;
use swift_ast::Leaf;
use type_rules::{Answers, Ty, binary as binary_type, unary as unary_type};
use typed_code::{Operator, Step};

/// A value where one of a type is wanted. The first token of its expression is named where it is of another type.
pub fn converted<A: Answers>(
    alloc: Global,
    answers: &A,
    log: &mut Log,
    first: Place,
    wanted: &Ty,
    value: Typed,
) -> Result<Option<Typed>, NoMemory>
    ensures { IfOk result (λ got. (got, log.new) ≡ made orders (A.meanings answers.now) (spec.converted first wanted.now value) log.old) }
{
    if value.ty == *wanted {
        Ok(Some(value))
    } else {
        say_no_conversion(alloc, log, first, &value.ty, wanted)?;
        Ok(None)
    }
}

/// The operator that does both operands.
fn operator_of(text: &str) -> Operator
    ensures { result ≡ spec.operator_of text.now }
{
    match text {
        "+" => Operator::Add,
        "-" => Operator::Subtract,
        "*" => Operator::Multiply,
        "/" => Operator::Divide,
        "%" => Operator::Remainder,
        "<" => Operator::Less,
        "<=" => Operator::LessOrEqual,
        ">" => Operator::Greater,
        ">=" => Operator::GreaterOrEqual,
        "==" => Operator::Equal,
        _ => Operator::NotEqual,
    }
}

/// Puts what stands behind the code of the left operand there. `&&` and `||` do the right one only where it counts.
fn push_operator(
    code: &mut Items<Step>,
    text: &str,
    operands: Ty,
    right: Items<Step>,
) -> Result<(), NoMemory>
    ensures { OnOk result (code.new ≡ code.old ++ spec.operator_code text.now operands right) }
{
    match text {
        "&&" => {
            code.push(Step::And(right))?;
            Ok(())
        }
        "||" => {
            code.push(Step::Or(right))?;
            Ok(())
        }
        _ => {
            code.append(right)?;
            code.push(Step::Operate(operator_of(text), operands))?;
            Ok(())
        }
    }
}

/// An operator between two operands.
pub fn binary<A: Answers>(
    alloc: Global,
    answers: &A,
    log: &mut Log,
    t: &Leaf,
    left: Typed,
    right: Typed,
) -> Result<Option<Typed>, NoMemory>
    ensures { IfOk result (λ got. (got, log.new) ≡ made orders (A.meanings answers.now) (spec.binary t.now (left, right)) log.old) }
{
    match binary_type(t.text.as_str(), &left.ty, &right.ty) {
        None => {
            say_no_binary(
                alloc,
                log,
                Place::of(t),
                t.text.as_str(),
                &left.ty,
                &right.ty,
            )?;
            Ok(None)
        }
        Some(ty) => {
            let Typed {
                ty: operands,
                mut code,
            } = left;
            push_operator(&mut code, t.text.as_str(), operands, right.code)?;
            Ok(Some(Typed { ty, code }))
        }
    }
}

/// What an operator before an operand does.
fn prefix_step(text: &str) -> Step
    ensures { result ≡ spec.prefix_step text.now }
{
    match text {
        "-" => Step::Negate,
        _ => Step::Not,
    }
}

/// An operator before an operand.
pub fn unary<A: Answers>(
    alloc: Global,
    answers: &A,
    log: &mut Log,
    t: &Leaf,
    operand: Typed,
) -> Result<Option<Typed>, NoMemory>
    ensures { IfOk result (λ got. (got, log.new) ≡ made orders (A.meanings answers.now) (spec.unary t.now operand) log.old) }
{
    match unary_type(t.text.as_str(), &operand.ty) {
        None => {
            say_no_unary(alloc, log, Place::of(t), t.text.as_str(), &operand.ty)?;
            Ok(None)
        }
        Some(ty) => {
            let Typed { mut code, .. } = operand;
            code.push(prefix_step(t.text.as_str()))?;
            Ok(Some(Typed { ty, code }))
        }
    }
}
