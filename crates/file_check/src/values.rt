//! Initial values.

ghost use Rattle.std.specs.Prelude.{◌≡◌, [], ◌∷◌, Some, None, IfOk};
ghost use Rattle.checks.specs.Checks.{sure, go_on, hushed};
ghost use Rattle.checks.specs.Logs.{made};
ghost use Rattle.expr_check.specs.Messages.{orders};
ghost use Rattle.expr_check.specs.Types.{type_written};
ghost use Rattle.expr_check.specs.Phrases.{expr_phrase};
ghost use Rattle.body_check.specs.Declarations as spec;
ghost use Rattle.file_check.specs.Runs.{run, valued_by};

use crate::scopes::outside;
use crate::sites::SiteIndex;
use body_check::{annotated, fitting};
use dep_key::{Key, Name, NoMemory};
use expr_check::{Log, Scope, Typed, type_written};
use expr_tree::{check_expression, first_place};
use sqlite_items::Items;
use std::alloc::Global;
use swift_ast::{Expr, Leaf, TypeName};
use type_rules::{Answers, Meaning, Ty};
use typed_code::Unit;

/// A value that fits what is wanted.
fn fitting_value<A: Answers>(
    alloc: Global,
    answers: &A,
    log: &mut Log,
    scope: &Scope,
    wanted: Option<Option<Ty>>,
    value: &Expr,
) -> Result<Option<Typed>, NoMemory>
    ensures { IfOk result (λ got. (got, log.new) ≡ made orders (A.meanings answers.now) (spec.fitting_value scope.now wanted (expr_phrase value.now)) log.old) }
{
    let found = check_expression(alloc, answers, log, scope, value)?;
    let fitted = fitting(alloc, answers, log, first_place(value), wanted, found)?;
    Ok(fitted)
}

/// A value that fits what is wanted, of which nothing is said.
#[tactic(auto, using(crate::proofs::ValueLemmas::hushed_made))]
fn hushed_value<A: Answers>(
    alloc: Global,
    answers: &A,
    log: &mut Log,
    scope: &Scope,
    wanted: Option<Option<Ty>>,
    value: &Expr,
) -> Result<Option<Typed>, NoMemory>
    ensures { IfOk result (λ got. (got, log.new) ≡ made orders (A.meanings answers.now) (hushed (spec.fitting_value scope.now wanted (expr_phrase value.now))) log.old) }
{
    let before = log.is_muted();
    log.mute(true);
    let fitted = fitting_value(alloc, answers, log, scope, wanted, value)?;
    log.mute(before);
    Ok(fitted)
}

/// A value that fits what is wanted, of which nothing is said where its declaration is circular.
fn value_meant<A: Answers>(
    alloc: Global,
    answers: &A,
    log: &mut Log,
    scope: &Scope,
    meaning: &Meaning,
    wanted: Option<Option<Ty>>,
    value: &Expr,
) -> Result<Option<Typed>, NoMemory>
    ensures { IfOk result (λ got. (got, log.new) ≡ made orders (A.meanings answers.now) (spec.unless_circular meaning.now (spec.fitting_value scope.now wanted (expr_phrase value.now))) log.old) }
{
    match meaning {
        Meaning::Circular => {
            let fitted = hushed_value(alloc, answers, log, scope, wanted, value)?;
            Ok(fitted)
        }
        _ => {
            let fitted = fitting_value(alloc, answers, log, scope, wanted, value)?;
            Ok(fitted)
        }
    }
}

/// The initial value of the declaration of a key, where a type is wanted of it, or none.
pub fn value_wanted<A: Answers>(
    alloc: Global,
    answers: &A,
    log: &mut Log,
    site: &SiteIndex<'_>,
    key: &Key,
    wanted: Option<Option<Ty>>,
    value: &Expr,
) -> Result<Option<Typed>, NoMemory>
    ensures { IfOk result (λ got. (Some got, log.new) ≡ run (A.meanings answers.now) (valued_by site.now key.now wanted (expr_phrase value.now)) log.old) }
{
    let scope = outside(alloc, site)?;
    let meaning = answers.meaning(key);
    let got = value_meant(alloc, answers, log, &scope, meaning, wanted, value)?;
    Ok(got)
}

/// The initial value of the declaration of a key. It says nothing where that is circular.
pub fn check_value<A: Answers>(
    alloc: Global,
    answers: &A,
    log: &mut Log,
    site: &SiteIndex<'_>,
    key: &Key,
    annotation: &Option<(Leaf, TypeName)>,
    value: &Expr,
) -> Result<Option<Typed>, NoMemory>
    ensures { IfOk result (λ got. (Some got, log.new) ≡ run (A.meanings answers.now) (spec.value_check site.now key.now annotation.now (expr_phrase value.now)) log.old) }
{
    let scope = outside(alloc, site)?;
    let wanted = annotated(alloc, answers, log, &scope, annotation)?;
    let got = value_wanted(alloc, answers, log, site, key, wanted, value)?;
    Ok(got)
}

/// A written type, as what is wanted of a value.
#[tactic(auto, using(expr_check::proofs::CheckLaws::bind))]
pub fn wanted_type<A: Answers>(
    alloc: Global,
    answers: &A,
    log: &mut Log,
    scope: &Scope,
    name: &Leaf,
) -> Result<Option<Option<Ty>>, NoMemory>
    ensures { IfOk result (λ got. (got, log.new) ≡ made orders (A.meanings answers.now) (go_on (type_written scope.now name.now) (λ of. sure (Some of))) log.old) }
{
    match type_written(alloc, answers, log, scope, name)? {
        None => Ok(None),
        Some(of) => Ok(Some(Some(of))),
    }
}

/// The unit of a global.
pub fn global_units(
    alloc: Global,
    symbol: Name,
    value: Option<Typed>,
) -> Result<Items<Unit>, NoMemory>
    ensures { IfOk result (λ units. units ≡ spec.global_units symbol value) }
{
    let mut units = Items::new(alloc);
    match value {
        None => Ok(units),
        Some(Typed { ty, code }) => {
            units.push(Unit::Global(symbol, ty, code))?;
            Ok(units)
        }
    }
}
