//! What names and members mean that are called.

ghost use Rattle.std.specs.Prelude.{◌≡◌, None, IfOk};
ghost use Rattle.checks.specs.Checks.{go_on, sure};
ghost use Rattle.checks.specs.Logs.{made};
ghost use Rattle.type_rules.specs.declared.ty.Ty.TheVariants as ty;
ghost use Rattle.expr_check.specs.Found.{found_view};
ghost use Rattle.expr_check.specs.Messages.{orders};
ghost use Rattle.expr_check.specs.Expressions as spec;
ghost use Rattle.expr_tree.specs.Callees.{callee_view, called_view};

use crate::callee::Callee;
use dep_key::{Key, Kind, Name, NoMemory};
use expr_check::{
    Found, Local, Log, Named, Place, Scope, Typed, copied_type, fetch, is_print, local_named,
    local_value, look_up, member_named, name_value, property, say_has_errors, say_not_a_value,
    say_not_found, self_value, usable, value_keys, value_of, written_name,
};
use std::alloc::Global;
use swift_ast::Leaf;
use type_rules::{Answers, Field, Meaning, Parameter, Parameters, Ty};

/// The parameters of the initializer of a struct: its stored properties without a value, by their written names.
fn memberwise(alloc: Global, fields: &[Field]) -> Result<Parameters, NoMemory>
    ensures { IfOk result (λ params. params ≡ spec.memberwise fields.now) }
{
    let mut params = Vec::new(alloc);
    for field in fields {
        if !field.has_value {
            let label = Name::from_str(alloc, written_name(field.name.as_str()))?;
            let ty = field.ty.clone()?;
            params.push(Parameter { label, ty })?;
        }
    }
    Ok(Parameters::from_vec(params))
}

/// The symbol of the initializer of a struct.
fn initializer_symbol(alloc: Global, context: &str) -> Result<Name, NoMemory>
    ensures { IfOk result (λ symbol. symbol ≡ spec.initializer_symbol context.now) }
{
    let text = format!(in alloc; "{context}:init")?;
    let symbol = Name::from_string(text)?;
    Ok(symbol)
}

/// The initializer of a struct.
fn initializer(alloc: Global, context: &Name, fields: &[Field]) -> Result<Callee, NoMemory>
    ensures { IfOk result (λ callee. callee_view callee ≡ spec.Takes None (spec.initializer_symbol context.now) (spec.memberwise fields.now) (ty.Struct context.now)) }
{
    let symbol = initializer_symbol(alloc, context.as_str())?;
    let params = memberwise(alloc, fields)?;
    let context = context.clone()?;
    Ok(Callee::Takes(None, symbol, params, Ty::Struct(context)))
}

/// The initializer of a struct, whose stored parts mean something.
fn initializer_of<A: Answers>(
    alloc: Global,
    answers: &A,
    log: &mut Log,
    t: &Leaf,
    context: &Name,
    meaning: &Meaning,
) -> Result<Option<Callee>, NoMemory>
    ensures { IfOk result (λ got. (called_view got, log.new) ≡ made orders (A.meanings answers.now) (spec.initializer_of t.now context.now meaning.now) log.old) }
{
    match meaning {
        Meaning::Fields { fields, .. } => {
            let callee = initializer(alloc, context, fields.as_slice())?;
            Ok(Some(callee))
        }
        Meaning::Broken | Meaning::Circular => {
            say_has_errors(alloc, log, Place::of(t), written_name(context.as_str()))?;
            Ok(None)
        }
        _ => Ok(None),
    }
}

/// A type that is called: a struct, by its stored parts.
fn type_callee<A: Answers>(
    alloc: Global,
    answers: &A,
    log: &mut Log,
    t: &Leaf,
    ty: &Ty,
) -> Result<Option<Callee>, NoMemory>
    ensures { IfOk result (λ got. (called_view got, log.new) ≡ made orders (A.meanings answers.now) (spec.type_callee t.now ty.now) log.old) }
{
    match ty {
        Ty::Struct(context) => {
            let callee = struct_callee(alloc, answers, log, t, context)?;
            Ok(callee)
        }
        _ => {
            say_not_a_value(alloc, log, Place::of(t), t.text.as_str())?;
            Ok(None)
        }
    }
}

/// A struct that is called.
fn struct_callee<A: Answers>(
    alloc: Global,
    answers: &A,
    log: &mut Log,
    t: &Leaf,
    context: &Name,
) -> Result<Option<Callee>, NoMemory>
    ensures { IfOk result (λ got. (called_view got, log.new) ≡ made orders (A.meanings answers.now) (spec.type_callee t.now (ty.Struct context.now)) log.old) }
{
    let key = Key::nominal(context.clone()?);
    let meaning = fetch(answers, log, &key)?;
    let callee = initializer_of(alloc, answers, log, t, context, meaning)?;
    Ok(callee)
}

/// The symbol of a member.
fn member_symbol(alloc: Global, key: &Key) -> Result<Name, NoMemory>
    ensures { IfOk result (λ symbol. symbol ≡ spec.member_symbol key.now) }
{
    let context = key.context.as_str();
    let name = key.name.as_str();
    let text = format!(in alloc; "{context}:{name}")?;
    let symbol = Name::from_string(text)?;
    Ok(symbol)
}

/// A method of a value.
fn method_of(
    alloc: Global,
    base: Typed,
    key: &Key,
    params: &Parameters,
    gives: &Ty,
) -> Result<Callee, NoMemory>
    ensures { IfOk result (λ callee. callee_view callee ≡ spec.method_of base key.now params.now gives.now) }
{
    let symbol = member_symbol(alloc, key)?;
    let params = params.clone()?;
    let ty = gives.clone()?;
    Ok(Callee::Takes(Some(base), symbol, params, ty))
}

/// A method that is called on `self`.
#[tactic(auto, using(crate::proofs::CheckLaws::bind))]
fn method_of_self<A: Answers>(
    alloc: Global,
    answers: &A,
    log: &mut Log,
    scope: &Scope,
    t: &Leaf,
    key: &Key,
    params: &Parameters,
    gives: &Ty,
) -> Result<Option<Callee>, NoMemory>
    ensures { IfOk result (λ got. (called_view got, log.new) ≡ made orders (A.meanings answers.now) (go_on (spec.self_value scope.now t.now) (λ base. sure (spec.method_of base key.now params.now gives.now))) log.old) }
{
    match self_value(alloc, answers, log, scope, t)? {
        None => Ok(None),
        Some(base) => {
            let callee = method_of(alloc, base, key, params, gives)?;
            Ok(Some(callee))
        }
    }
}

/// A function that no value receives.
fn function(key: &Key, params: &Parameters, gives: &Ty) -> Result<Callee, NoMemory>
    ensures { IfOk result (λ callee. callee_view callee ≡ spec.Takes None key.now.name params.now gives.now) }
{
    let symbol = key.name.clone()?;
    let params = params.clone()?;
    let ty = gives.clone()?;
    Ok(Callee::Takes(None, symbol, params, ty))
}

/// A function that is called by its name alone. A method is called on `self`.
fn function_callee<A: Answers>(
    alloc: Global,
    answers: &A,
    log: &mut Log,
    scope: &Scope,
    t: &Leaf,
    key: &Key,
    params: &Parameters,
    gives: &Ty,
) -> Result<Option<Callee>, NoMemory>
    ensures { IfOk result (λ got. (called_view got, log.new) ≡ made orders (A.meanings answers.now) (spec.function_callee scope.now t.now key.now params.now gives.now) log.old) }
{
    match key.kind {
        Kind::Member => {
            let callee = method_of_self(alloc, answers, log, scope, t, key, params, gives)?;
            Ok(callee)
        }
        _ => {
            let callee = function(key, params, gives)?;
            Ok(Some(callee))
        }
    }
}

/// A value of a name that is called.
#[tactic(auto, using(crate::proofs::CheckLaws::bind))]
fn named_value<A: Answers>(
    alloc: Global,
    answers: &A,
    log: &mut Log,
    scope: &Scope,
    t: &Leaf,
    named: Named,
) -> Result<Option<Callee>, NoMemory>
    ensures { IfOk result (λ got. (called_view got, log.new) ≡ made orders (A.meanings answers.now) (spec.value_callee (spec.name_value scope.now t.now named)) log.old) }
{
    match name_value(alloc, answers, log, scope, t, named)? {
        None => Ok(None),
        Some(value) => Ok(Some(Callee::IsValue(value.ty))),
    }
}

/// What the meaning of a name stands for, where it is called.
fn callee_meant<A: Answers>(
    alloc: Global,
    answers: &A,
    log: &mut Log,
    scope: &Scope,
    t: &Leaf,
    key: Key,
    meaning: &Meaning,
) -> Result<Option<Callee>, NoMemory>
    ensures { IfOk result (λ got. (called_view got, log.new) ≡ made orders (A.meanings answers.now) (spec.callee_meant scope.now t.now key meaning.now) log.old) }
{
    match meaning {
        Meaning::Function {
            params,
            result: gives,
        } => {
            let callee = function_callee(alloc, answers, log, scope, t, &key, params, gives)?;
            Ok(callee)
        }
        Meaning::Struct { context } => {
            let callee = struct_callee(alloc, answers, log, t, context)?;
            Ok(callee)
        }
        Meaning::Alias { ty } => {
            let callee = type_callee(alloc, answers, log, t, ty)?;
            Ok(callee)
        }
        Meaning::Value { mutable, ty } => {
            let named = value_of(key, *mutable, ty.clone()?);
            let callee = named_value(alloc, answers, log, scope, t, named)?;
            Ok(callee)
        }
        _ => Ok(None),
    }
}

/// A name that is called and that no declaration has.
fn callee_missing<A: Answers>(
    alloc: Global,
    answers: &A,
    log: &mut Log,
    scope: &Scope,
    t: &Leaf,
) -> Result<Option<Callee>, NoMemory>
    ensures { IfOk result (λ got. (called_view got, log.new) ≡ made orders (A.meanings answers.now) (spec.callee_found scope.now t.now None) log.old) }
{
    if is_print(t) {
        Ok(Some(Callee::Prints))
    } else {
        say_not_found(alloc, log, Place::of(t), t.text.as_str())?;
        Ok(None)
    }
}

/// What a name that is called was found to stand for.
#[tactic(auto, using(crate::proofs::CheckLaws::bind))]
fn callee_found<A: Answers>(
    alloc: Global,
    answers: &A,
    log: &mut Log,
    scope: &Scope,
    t: &Leaf,
    found: Option<Found<'_>>,
) -> Result<Option<Callee>, NoMemory>
    ensures { IfOk result (λ got. (called_view got, log.new) ≡ made orders (A.meanings answers.now) (spec.callee_found scope.now t.now (found_view found.entry)) log.old) }
{
    match found {
        None => {
            let callee = callee_missing(alloc, answers, log, scope, t)?;
            Ok(callee)
        }
        Some(Found { key, meaning }) => match usable(alloc, answers, log, t, meaning)? {
            None => Ok(None),
            Some(meaning) => {
                let callee = callee_meant(alloc, answers, log, scope, t, key, meaning)?;
                Ok(callee)
            }
        },
    }
}

/// A local that is called.
#[tactic(auto, using(crate::proofs::CheckLaws::bind))]
fn local_callee<A: Answers>(
    alloc: Global,
    answers: &A,
    log: &mut Log,
    scope: &Scope,
    t: &Leaf,
    local: &Local,
) -> Result<Option<Callee>, NoMemory>
    ensures { IfOk result (λ got. (called_view got, log.new) ≡ made orders (A.meanings answers.now) (spec.value_callee (spec.local_value scope.now t.now local.now.number local.now.ty)) log.old) }
{
    let ty = copied_type(&local.ty)?;
    match local_value(alloc, answers, log, scope, t, local.number, ty)? {
        None => Ok(None),
        Some(value) => Ok(Some(Callee::IsValue(value.ty))),
    }
}

/// A name that is called.
#[tactic(auto, using(crate::proofs::CheckLaws::bind))]
pub fn callee_named<A: Answers>(
    alloc: Global,
    answers: &A,
    log: &mut Log,
    scope: &Scope,
    t: &Leaf,
) -> Result<Option<Callee>, NoMemory>
    ensures { IfOk result (λ got. (called_view got, log.new) ≡ made orders (A.meanings answers.now) (spec.callee_named scope.now t.now) log.old) }
{
    match local_named(scope.blocks.as_slice(), t.text.as_str()) {
        Some(local) => {
            let callee = local_callee(alloc, answers, log, scope, t, local)?;
            Ok(callee)
        }
        None => {
            let keys = value_keys(alloc, scope, t.text.as_str())?;
            let found = look_up(answers, log, keys)?;
            let callee = callee_found(alloc, answers, log, scope, t, found)?;
            Ok(callee)
        }
    }
}

/// A property that is called.
#[tactic(auto, using(crate::proofs::CheckLaws::bind))]
fn property_callee<A: Answers>(
    alloc: Global,
    answers: &A,
    log: &mut Log,
    scope: &Scope,
    first: Place,
    base: Typed,
    key: &Key,
    ty: Ty,
) -> Result<Option<Callee>, NoMemory>
    ensures { IfOk result (λ got. (called_view got, log.new) ≡ made orders (A.meanings answers.now) (spec.value_callee (spec.property scope.now first base key.now ty)) log.old) }
{
    match property(alloc, answers, log, scope, first, base, key, ty)? {
        None => Ok(None),
        Some(value) => Ok(Some(Callee::IsValue(value.ty))),
    }
}

/// What a member of a value stands for, where it is called.
fn method_meant<A: Answers>(
    alloc: Global,
    answers: &A,
    log: &mut Log,
    scope: &Scope,
    first: Place,
    base: Typed,
    found: Found<'_>,
) -> Result<Option<Callee>, NoMemory>
    ensures { IfOk result (λ got. (called_view got, log.new) ≡ made orders (A.meanings answers.now) (spec.method_meant scope.now first base (found.entry.key, found.entry.meaning.now)) log.old) }
{
    match found.meaning {
        Meaning::Function {
            params,
            result: gives,
        } => {
            let callee = method_of(alloc, base, &found.key, params, gives)?;
            Ok(Some(callee))
        }
        Meaning::Value { ty, .. } => {
            let ty = ty.clone()?;
            let callee = property_callee(alloc, answers, log, scope, first, base, &found.key, ty)?;
            Ok(callee)
        }
        _ => Ok(None),
    }
}

/// A member of a value that is called.
#[tactic(auto, using(crate::proofs::CheckLaws::bind))]
pub fn method_named<A: Answers>(
    alloc: Global,
    answers: &A,
    log: &mut Log,
    scope: &Scope,
    first: Place,
    m: &Leaf,
    base: Typed,
) -> Result<Option<Callee>, NoMemory>
    ensures { IfOk result (λ got. (called_view got, log.new) ≡ made orders (A.meanings answers.now) (go_on (spec.member_named scope.now base.ty m.now) (λ found. spec.method_meant scope.now first base found)) log.old) }
{
    match member_named(alloc, answers, log, scope, &base.ty, m)? {
        None => Ok(None),
        Some(found) => {
            let callee = method_meant(alloc, answers, log, scope, first, base, found)?;
            Ok(callee)
        }
    }
}
