//! Returns, conditions and calls.

ghost use Rattle.std.specs.Prelude.{◌≡◌, IfOk};
ghost use Rattle.std.specs.Option.{option_map};
ghost use Rattle.checks.specs.Logs.{made};
ghost use Rattle.expr_check.specs.Messages.{orders};
ghost use Rattle.expr_check.specs.Phrases.{expr_phrase, postfix_phrase};
ghost use Rattle.body_check.specs.Statements as spec;

use crate::say::say_return_needs_value;
use dep_key::NoMemory;
use expr_check::{Log, Place, Scope, Typed, converted, one_step};
use expr_tree::{check_expression, check_postfix, first_place};
use sqlite_items::Items;
use std::alloc::Global;
use swift_ast::{Expr, Leaf, Postfix};
use type_rules::{Answers, Ty};
use typed_code::Step;

/// A `return` without a value.
fn return_none<A: Answers>(
    alloc: Global,
    answers: &A,
    log: &mut Log,
    t: &Leaf,
    wanted: &Option<Ty>,
) -> Result<Option<Items<Step>>, NoMemory>
    ensures { IfOk result (λ got. (got, log.new) ≡ made orders (A.meanings answers.now) (spec.return_none t.now wanted.now) log.old) }
{
    match wanted {
        None => Ok(None),
        Some(Ty::Void) => {
            let code = one_step(alloc, Step::Return(Ty::Void))?;
            Ok(Some(code))
        }
        Some(ty) => {
            say_return_needs_value(alloc, log, Place::of(t), ty)?;
            Ok(None)
        }
    }
}

/// A value where a function returns it, in an expression that begins at a place.
fn converted_to<A: Answers>(
    alloc: Global,
    answers: &A,
    log: &mut Log,
    first: Place,
    wanted: &Option<Ty>,
    value: Typed,
) -> Result<Option<Typed>, NoMemory>
    ensures { IfOk result (λ got. (got, log.new) ≡ made orders (A.meanings answers.now) (spec.converted_to first wanted.now value) log.old) }
{
    match wanted {
        None => Ok(None),
        Some(ty) => {
            let value = converted(alloc, answers, log, first, ty, value)?;
            Ok(value)
        }
    }
}

/// A `return` with a value.
#[tactic(auto, using(expr_check::proofs::CheckLaws::bind))]
fn return_value<A: Answers>(
    alloc: Global,
    answers: &A,
    log: &mut Log,
    scope: &Scope,
    value: &Expr,
) -> Result<Option<Items<Step>>, NoMemory>
    ensures { IfOk result (λ got. (got, log.new) ≡ made orders (A.meanings answers.now) (spec.return_value (expr_phrase value.now) scope.now) log.old) }
{
    match check_expression(alloc, answers, log, scope, value)? {
        None => Ok(None),
        Some(found) => {
            let first = first_place(value);
            match converted_to(alloc, answers, log, first, &scope.result, found)? {
                None => Ok(None),
                Some(Typed { ty, mut code }) => {
                    code.push(Step::Return(ty))?;
                    Ok(Some(code))
                }
            }
        }
    }
}

/// A `return`.
pub fn returned<A: Answers>(
    alloc: Global,
    answers: &A,
    log: &mut Log,
    scope: &Scope,
    keyword: &Leaf,
    value: &Option<Expr>,
) -> Result<Option<Items<Step>>, NoMemory>
    ensures { IfOk result (λ got. (got, log.new) ≡ made orders (A.meanings answers.now) (spec.return_check keyword.now (option_map expr_phrase value.now) scope.now) log.old) }
{
    match value {
        None => {
            let code = return_none(alloc, answers, log, keyword, &scope.result)?;
            Ok(code)
        }
        Some(value) => {
            let code = return_value(alloc, answers, log, scope, value)?;
            Ok(code)
        }
    }
}

/// A condition.
#[tactic(auto, using(expr_check::proofs::CheckLaws::bind))]
pub fn condition<A: Answers>(
    alloc: Global,
    answers: &A,
    log: &mut Log,
    scope: &Scope,
    value: &Expr,
) -> Result<Option<Items<Step>>, NoMemory>
    ensures { IfOk result (λ got. (got, log.new) ≡ made orders (A.meanings answers.now) (spec.condition (expr_phrase value.now) scope.now) log.old) }
{
    match check_expression(alloc, answers, log, scope, value)? {
        None => Ok(None),
        Some(found) => {
            let first = first_place(value);
            match converted(alloc, answers, log, first, &Ty::Bool, found)? {
                None => Ok(None),
                Some(Typed { code, .. }) => Ok(Some(code)),
            }
        }
    }
}

/// A call, whose value nobody wants.
#[tactic(auto, using(expr_check::proofs::CheckLaws::bind))]
pub fn called<A: Answers>(
    alloc: Global,
    answers: &A,
    log: &mut Log,
    scope: &Scope,
    call: &Postfix,
) -> Result<Option<Items<Step>>, NoMemory>
    ensures { IfOk result (λ got. (got, log.new) ≡ made orders (A.meanings answers.now) (spec.call_check (postfix_phrase call.now) scope.now) log.old) }
{
    match check_postfix(alloc, answers, log, scope, call)? {
        None => Ok(None),
        Some(Typed { ty, mut code }) => {
            code.push(Step::Drop(ty))?;
            Ok(Some(code))
        }
    }
}
