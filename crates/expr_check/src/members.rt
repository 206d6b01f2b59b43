//! Members of values.

ghost use Rattle.std.specs.Prelude.{◌≡◌, IfOk};
ghost use Rattle.checks.specs.Logs.{made};
ghost use Rattle.expr_check.specs.Messages.{orders};
ghost use Rattle.expr_check.specs.Found.{found_view};
ghost use Rattle.expr_check.specs.Expressions as spec;
ghost use Rattle.expr_check.specs.Types.{wrong_name};
ghost use Rattle.expr_check.specs.Message as is;

use crate::names::property;
use crate::say::{say_no_member, say_not_a_value};
use crate::types::{Found, look_up, member_keys, usable};
use crate::{Log, Place, Scope, Typed};
use dep_key::{Name, NoMemory};
use std::alloc::Global;
use swift_ast::Leaf;
use type_rules::{Answers, Meaning, Ty};

/// Says that a type has no such member.
fn no_member<'a, A: Answers>(
    alloc: Global,
    answers: &'a A,
    log: &mut Log,
    ty: &Ty,
    m: &Leaf,
) -> Result<Option<Found<'a>>, NoMemory>
    ensures { IfOk result (λ got. (found_view got, log.new) ≡ made orders (A.meanings answers.now) (wrong_name m.now (λ name. is.NoMember ty.now name)) log.old) }
{
    say_no_member(alloc, log, Place::of(m), ty, m.text.as_str())?;
    Ok(None)
}

/// A member that was found, where it can be used.
#[tactic(auto, using(crate::proofs::CheckLaws::bind))]
fn member_there<'a, A: Answers>(
    alloc: Global,
    answers: &'a A,
    log: &mut Log,
    ty: &Ty,
    m: &Leaf,
    found: Option<Found<'a>>,
) -> Result<Option<Found<'a>>, NoMemory>
    ensures { IfOk result (λ got. (found_view got, log.new) ≡ made orders (A.meanings answers.now) (spec.member_there ty.now m.now (found_view found.entry)) log.old) }
{
    match found {
        None => {
            let none = no_member(alloc, answers, log, ty, m)?;
            Ok(none)
        }
        Some(Found { key, meaning }) => match usable(alloc, answers, log, m, meaning)? {
            None => Ok(None),
            Some(meaning) => Ok(Some(Found { key, meaning })),
        },
    }
}

/// A member of a value of the type of a context.
#[tactic(auto, using(crate::proofs::CheckLaws::bind))]
fn member_in<'a, A: Answers>(
    alloc: Global,
    answers: &'a A,
    log: &mut Log,
    scope: &Scope,
    ty: &Ty,
    context: &Name,
    m: &Leaf,
) -> Result<Option<Found<'a>>, NoMemory>
    ensures { IfOk result (λ got. (found_view got, log.new) ≡ made orders (A.meanings answers.now) (spec.member_in scope.now ty.now context.now m.now) log.old) }
{
    let keys = member_keys(alloc, scope.path.as_str(), context, m.text.as_str())?;
    let found = look_up(answers, log, keys)?;
    let member = member_there(alloc, answers, log, ty, m, found)?;
    Ok(member)
}

/// A member of a value of a type. Structs alone have members.
pub fn member_named<'a, A: Answers>(
    alloc: Global,
    answers: &'a A,
    log: &mut Log,
    scope: &Scope,
    ty: &Ty,
    m: &Leaf,
) -> Result<Option<Found<'a>>, NoMemory>
    ensures { IfOk result (λ got. (found_view got, log.new) ≡ made orders (A.meanings answers.now) (spec.member_named scope.now ty.now m.now) log.old) }
{
    match ty {
        Ty::Struct(context) => {
            let member = member_in(alloc, answers, log, scope, ty, context, m)?;
            Ok(member)
        }
        _ => {
            let none = no_member(alloc, answers, log, ty, m)?;
            Ok(none)
        }
    }
}

/// A member as a value.
pub fn member_value<A: Answers>(
    alloc: Global,
    answers: &A,
    log: &mut Log,
    scope: &Scope,
    first: Place,
    m: &Leaf,
    base: Typed,
    found: Found<'_>,
) -> Result<Option<Typed>, NoMemory>
    ensures { IfOk result (λ got. (got, log.new) ≡ made orders (A.meanings answers.now) (spec.member_value scope.now first m.now base (found.entry.key, found.entry.meaning.now)) log.old) }
{
    match found.meaning {
        Meaning::Value { ty, .. } => {
            let ty = ty.clone()?;
            let value = property(alloc, answers, log, scope, first, base, &found.key, ty)?;
            Ok(value)
        }
        _ => {
            say_not_a_value(alloc, log, Place::of(m), m.text.as_str())?;
            Ok(None)
        }
    }
}
