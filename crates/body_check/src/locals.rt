//! Declarations of locals.

ghost use Rattle.std.specs.Prelude.{◌≡◌, Some, IfOk, OnOk};
ghost use Rattle.checks.specs.Logs.{made};
ghost use Rattle.expr_check.specs.Messages.{orders};
ghost use Rattle.expr_check.specs.Phrases.{expr_phrase};
ghost use Rattle.body_check.specs.Blocks.{surroundings};
ghost use Rattle.body_check.specs.Statements as spec;

use crate::blocks::{declare, named_in_innermost, next_number};
use crate::say::say_redeclared;
use dep_key::NoMemory;
use expr_check::{Log, Place, Scope, Typed, converted, type_written};
use expr_tree::{check_expression, first_place};
use sqlite_items::Items;
use std::alloc::{AllocError, Global};
use swift_ast::{BindingSpecifier, Expr, Leaf, TypeName};
use type_rules::{Answers, Ty};
use typed_code::Step;

/// A written type, or that none is written.
#[tactic(auto, using(expr_check::proofs::CheckLaws::bind))]
pub fn annotated<A: Answers>(
    alloc: Global,
    answers: &A,
    log: &mut Log,
    scope: &Scope,
    annotation: &Option<(Leaf, TypeName)>,
) -> Result<Option<Option<Ty>>, NoMemory>
    ensures { IfOk result (λ got. (got, log.new) ≡ made orders (A.meanings answers.now) (spec.annotated scope.now annotation.now) log.old) }
{
    match annotation {
        None => Ok(Some(None)),
        Some((_, t)) => match type_written(alloc, answers, log, scope, &t.name)? {
            None => Ok(None),
            Some(ty) => Ok(Some(Some(ty))),
        },
    }
}

/// The type of a local: the written one, and else that of its value.
fn binding_type(
    wanted: &Option<Option<Ty>>,
    found: &Option<Typed>,
) -> Result<Option<Ty>, AllocError>
    ensures { IfOk result (λ ty. ty ≡ spec.binding_type wanted.now found.now) }
{
    match wanted {
        None => Ok(None),
        Some(Some(ty)) => {
            let ty = ty.clone()?;
            Ok(Some(ty))
        }
        Some(None) => match found {
            None => Ok(None),
            Some(value) => {
                let ty = value.ty.clone()?;
                Ok(Some(ty))
            }
        },
    }
}

/// A value where a type is written or not, in an expression that begins at a place.
pub fn fitting<A: Answers>(
    alloc: Global,
    answers: &A,
    log: &mut Log,
    first: Place,
    wanted: Option<Option<Ty>>,
    found: Option<Typed>,
) -> Result<Option<Typed>, NoMemory>
    ensures { IfOk result (λ got. (got, log.new) ≡ made orders (A.meanings answers.now) (spec.fitting first wanted found) log.old) }
{
    match wanted {
        None => Ok(None),
        Some(None) => match found {
            None => Ok(None),
            Some(value) => Ok(Some(value)),
        },
        Some(Some(ty)) => match found {
            None => Ok(None),
            Some(value) => {
                let value = converted(alloc, answers, log, first, &ty, value)?;
                Ok(value)
            }
        },
    }
}

/// Says where a name stands in the innermost block already.
pub fn not_declared<A: Answers>(
    alloc: Global,
    answers: &A,
    log: &mut Log,
    scope: &Scope,
    name: &Leaf,
) -> Result<Option<Items<Step>>, NoMemory>
    ensures { IfOk result (λ got. (got, log.new) ≡ made orders (A.meanings answers.now) (spec.not_declared scope.now name.now) log.old) }
{
    match named_in_innermost(scope.blocks.as_slice(), name.text.as_str()) {
        None => Ok(Some(Items::new(alloc))),
        Some(_) => {
            say_redeclared(alloc, log, Place::of(name), name.text.as_str())?;
            Ok(None)
        }
    }
}

/// The code of a local, in whose expression a value was found or not.
#[tactic(auto, using(expr_check::proofs::CheckLaws::bind, expr_check::proofs::CheckLaws::noted))]
fn set_local<A: Answers>(
    alloc: Global,
    answers: &A,
    log: &mut Log,
    scope: &Scope,
    name: &Leaf,
    first: Place,
    wanted: Option<Option<Ty>>,
    found: Option<Typed>,
) -> Result<Option<Items<Step>>, NoMemory>
    ensures { IfOk result (λ got. (got, log.new) ≡ made orders (A.meanings answers.now) (spec.set_local scope.now name.now first wanted found) log.old) }
{
    not_declared(alloc, answers, log, scope, name)?;
    match fitting(alloc, answers, log, first, wanted, found)? {
        None => Ok(None),
        Some(Typed { ty, mut code }) => {
            let number = next_number(scope)?;
            code.push(Step::SetLocal(number, Items::new(alloc), ty))?;
            Ok(Some(code))
        }
    }
}

/// Whether what is declared may be assigned to.
pub fn is_var(specifier: &BindingSpecifier) -> bool
    ensures { result ≡ spec.is_var specifier.now }
{
    match specifier {
        BindingSpecifier::Let(_) => false,
        BindingSpecifier::Var(_) => true,
    }
}

/// Reads the declaration of a local, which declares its name.
#[tactic(auto, using(crate::proofs::LocalLemmas::local_made, crate::proofs::BlockLemmas::declared_inside))]
pub fn read_local<A: Answers>(
    alloc: Global,
    answers: &A,
    log: &mut Log,
    scope: &mut Scope,
    mutable: bool,
    name: &Leaf,
    annotation: &Option<(Leaf, TypeName)>,
    value: &Expr,
) -> Result<Option<Items<Step>>, NoMemory>
    ensures reads { IfOk result (λ code. (Some (scope.new, code), log.new) ≡ made orders (A.meanings answers.now) (spec.local_read mutable name.now annotation.now (expr_phrase value.now) scope.old) log.old) }
    ensures stays { OnOk result (surroundings scope.new ≡ surroundings scope.old) }
{
    let wanted = annotated(alloc, answers, log, scope, annotation)?;
    let found = check_expression(alloc, answers, log, scope, value)?;
    let ty = binding_type(&wanted, &found)?;
    let first = first_place(value);
    let code = set_local(alloc, answers, log, scope, name, first, wanted, found)?;
    declare(alloc, scope, name.text.as_str(), ty, mutable)?;
    Ok(code)
}
