//! Names, `self` and members as values.

ghost use Rattle.std.specs.Prelude.{◌≡◌, [], ◌∷◌, None, IfOk};
ghost use Rattle.std.specs.Option.{option_copied};
ghost use Rattle.checks.specs.Logs.{made};
ghost use Rattle.expr_check.specs.Messages.{orders, place_of};
ghost use Rattle.expr_check.specs.Found.{found_view};
ghost use Rattle.expr_check.specs.Scopes as scopes;
ghost use Rattle.expr_check.specs.Expressions as spec;
ghost use Rattle.typed_code.specs.declared.step.Step.TheVariants as step;

use crate::say::{say_not_a_value, say_not_found};
use crate::types::{Found, look_up, member_keys, top_keys, usable, valued};
use crate::{Local, Log, Named, Place, Scope, Typed};
use dep_key::{Key, Kind, Name, NoMemory};
use sqlite_items::Items;
use std::alloc::{AllocError, Global};
use swift_ast::Leaf;
use type_rules::{Answers, Meaning, Ty};
use typed_code::Step;

/// A copy of a type, if there is one.
pub fn copied_type(ty: &Option<Ty>) -> Result<Option<Ty>, AllocError>
    ensures { IfOk result (λ copy. copy ≡ ty.now) }
{
    match ty {
        None => Ok(None),
        Some(ty) => {
            let ty = ty.clone()?;
            Ok(Some(ty))
        }
    }
}

fn copied_local(local: &Local) -> Result<Local, AllocError>
    ensures { IfOk result (λ copy. copy ≡ local.now) }
{
    let name = local.name.clone()?;
    let ty = copied_type(&local.ty)?;
    Ok(Local {
        name,
        ty,
        mutable: local.mutable,
        number: local.number,
    })
}

/// Of one name in one block, the first local.
pub fn named_in<'a>(block: &'a [Local], name: &str) -> Option<&'a Local>
    ensures { option_copied result ≡ scopes.named_in block.now name.now }
{
    for local in block {
        if local.name.as_str() == name {
            return Some(local);
        }
    }
    None
}

/// The local of a name, from the innermost block outwards. There are at most as many blocks as brackets may be open.
pub fn local_named<'a>(blocks: &'a [Items<Local>], name: &str) -> Option<&'a Local>
    ensures { option_copied result ≡ scopes.local_named blocks.now name.now }
{
    match blocks {
        [] => None,
        [block, inner @ ..] => match local_named(inner, name) {
            Some(local) => Some(local),
            None => named_in(block.as_slice(), name),
        },
    }
}

/// One step alone.
pub fn one_step(alloc: Global, step: Step) -> Result<Items<Step>, NoMemory>
    ensures { IfOk result (λ code. code ≡ step ∷ []) }
{
    let mut code = Items::new(alloc);
    code.push(step)?;
    Ok(code)
}

/// The keys of a name that is no local.
pub fn value_keys(alloc: Global, scope: &Scope, name: &str) -> Result<Vec<Key>, NoMemory>
    ensures { IfOk result (λ keys. keys.items ≡ spec.value_keys scope.now name.now) }
{
    let path = scope.path.as_str();
    match &scope.context {
        None => {
            let keys = top_keys(alloc, path, name)?;
            Ok(keys)
        }
        Some(context) => {
            let mut keys = member_keys(alloc, path, context, name)?;
            let mut others = top_keys(alloc, path, name)?;
            keys.append(&mut others)?;
            Ok(keys)
        }
    }
}

/// A member, or a global.
pub fn value_of(key: Key, mutable: bool, ty: Ty) -> Named
    ensures { result ≡ spec.value_of key mutable ty }
{
    match key.kind {
        Kind::Member => Named::OfSelf(key, mutable, ty),
        _ => Named::Global(key, mutable, ty),
    }
}

/// What the meaning of a name stands for, where it is a value.
fn value_meant<A: Answers>(
    alloc: Global,
    answers: &A,
    log: &mut Log,
    t: &Leaf,
    key: Key,
    meaning: &Meaning,
) -> Result<Option<Named>, NoMemory>
    ensures { IfOk result (λ got. (got, log.new) ≡ made orders (A.meanings answers.now) (spec.value_meant t.now key meaning.now) log.old) }
{
    match meaning {
        Meaning::Value { mutable, ty } => {
            let ty = ty.clone()?;
            Ok(Some(value_of(key, *mutable, ty)))
        }
        _ => {
            say_not_a_value(alloc, log, Place::of(t), t.text.as_str())?;
            Ok(None)
        }
    }
}

/// Whether a name is that of the built-in function `print`.
pub fn is_print(t: &Leaf) -> bool
    ensures { result ≡ spec.is_print t.now }
{
    t.text.as_str() == "print"
}

/// A value's name that no declaration has.
fn value_missing<A: Answers>(
    alloc: Global,
    answers: &A,
    log: &mut Log,
    t: &Leaf,
) -> Result<Option<Named>, NoMemory>
    ensures { IfOk result (λ got. (got, log.new) ≡ made orders (A.meanings answers.now) (spec.value_found t.now None) log.old) }
{
    if is_print(t) {
        say_not_a_value(alloc, log, Place::of(t), t.text.as_str())?;
        Ok(None)
    } else {
        say_not_found(alloc, log, Place::of(t), t.text.as_str())?;
        Ok(None)
    }
}

/// What a name was found to stand for.
#[tactic(auto, using(crate::proofs::CheckLaws::bind))]
fn value_found<A: Answers>(
    alloc: Global,
    answers: &A,
    log: &mut Log,
    t: &Leaf,
    found: Option<Found<'_>>,
) -> Result<Option<Named>, NoMemory>
    ensures { IfOk result (λ got. (got, log.new) ≡ made orders (A.meanings answers.now) (spec.value_found t.now (found_view found.entry)) log.old) }
{
    match found {
        None => {
            let named = value_missing(alloc, answers, log, t)?;
            Ok(named)
        }
        Some(Found { key, meaning }) => match usable(alloc, answers, log, t, meaning)? {
            None => Ok(None),
            Some(meaning) => {
                let named = value_meant(alloc, answers, log, t, key, meaning)?;
                Ok(named)
            }
        },
    }
}

/// What a name stands for, as a value.
#[tactic(auto, using(crate::proofs::CheckLaws::bind))]
pub fn name_of<A: Answers>(
    alloc: Global,
    answers: &A,
    log: &mut Log,
    scope: &Scope,
    t: &Leaf,
) -> Result<Option<Named>, NoMemory>
    ensures { IfOk result (λ got. (got, log.new) ≡ made orders (A.meanings answers.now) (spec.name_of scope.now t.now) log.old) }
{
    match local_named(scope.blocks.as_slice(), t.text.as_str()) {
        Some(local) => {
            let local = copied_local(local)?;
            Ok(Some(Named::Local(local)))
        }
        None => {
            let keys = value_keys(alloc, scope, t.text.as_str())?;
            let found = look_up(answers, log, keys)?;
            let named = value_found(alloc, answers, log, t, found)?;
            Ok(named)
        }
    }
}

/// A value of a type that one step gives.
fn typed_by(alloc: Global, ty: Ty, step: Step) -> Result<Typed, NoMemory>
    ensures { IfOk result (λ v. v ≡ spec.typed ty (step ∷ [])) }
{
    let code = one_step(alloc, step)?;
    Ok(Typed { ty, code })
}

/// The value of `self`, whose type is one of a member.
#[tactic(auto, using(crate::proofs::CheckLaws::bind))]
fn self_typed<A: Answers>(
    alloc: Global,
    answers: &A,
    log: &mut Log,
    scope: &Scope,
    t: &Leaf,
    ty: &Ty,
) -> Result<Option<Typed>, NoMemory>
    ensures { IfOk result (λ got. (got, log.new) ≡ made orders (A.meanings answers.now) (spec.value_by scope.now (place_of t.now) ty.now (λ of. step.SelfValue of)) log.old) }
{
    match valued(alloc, answers, log, scope, Place::of(t), ty.clone()?)? {
        None => Ok(None),
        Some(ty) => {
            let step = Step::SelfValue(ty.clone()?);
            let value = typed_by(alloc, ty, step)?;
            Ok(Some(value))
        }
    }
}

/// `self` as a value.
pub fn self_value<A: Answers>(
    alloc: Global,
    answers: &A,
    log: &mut Log,
    scope: &Scope,
    t: &Leaf,
) -> Result<Option<Typed>, NoMemory>
    ensures { IfOk result (λ got. (got, log.new) ≡ made orders (A.meanings answers.now) (spec.self_value scope.now t.now) log.old) }
{
    match &scope.context {
        None => {
            say_not_a_value(alloc, log, Place::of(t), t.text.as_str())?;
            Ok(None)
        }
        Some(_) => match &scope.self_type {
            None => Ok(None),
            Some(ty) => {
                let value = self_typed(alloc, answers, log, scope, t, ty)?;
                Ok(value)
            }
        },
    }
}

/// A property of a value, in an expression that begins at a place.
#[tactic(auto, using(crate::proofs::CheckLaws::bind))]
pub fn property<A: Answers>(
    alloc: Global,
    answers: &A,
    log: &mut Log,
    scope: &Scope,
    first: Place,
    base: Typed,
    key: &Key,
    ty: Ty,
) -> Result<Option<Typed>, NoMemory>
    ensures { IfOk result (λ got. (got, log.new) ≡ made orders (A.meanings answers.now) (spec.property scope.now first base key.now ty) log.old) }
{
    match valued(alloc, answers, log, scope, first, ty)? {
        None => Ok(None),
        Some(ty) => {
            let step = Step::Property(key.context.clone()?, key.name.clone()?, ty.clone()?);
            let Typed { mut code, .. } = base;
            code.push(step)?;
            Ok(Some(Typed { ty, code }))
        }
    }
}

/// The value of a local.
#[tactic(auto, using(crate::proofs::CheckLaws::bind))]
pub fn local_value<A: Answers>(
    alloc: Global,
    answers: &A,
    log: &mut Log,
    scope: &Scope,
    t: &Leaf,
    number: u32,
    ty: Option<Ty>,
) -> Result<Option<Typed>, NoMemory>
    ensures { IfOk result (λ got. (got, log.new) ≡ made orders (A.meanings answers.now) (spec.local_value scope.now t.now number ty) log.old) }
{
    match ty {
        None => Ok(None),
        Some(ty) => match valued(alloc, answers, log, scope, Place::of(t), ty)? {
            None => Ok(None),
            Some(ty) => {
                let step = Step::Local(number, ty.clone()?);
                let value = typed_by(alloc, ty, step)?;
                Ok(Some(value))
            }
        },
    }
}

/// The value of a global.
#[tactic(auto, using(crate::proofs::CheckLaws::bind))]
fn global_value<A: Answers>(
    alloc: Global,
    answers: &A,
    log: &mut Log,
    scope: &Scope,
    t: &Leaf,
    symbol: Name,
    ty: Ty,
) -> Result<Option<Typed>, NoMemory>
    ensures { IfOk result (λ got. (got, log.new) ≡ made orders (A.meanings answers.now) (spec.value_by scope.now (place_of t.now) ty (λ of. step.Global symbol of)) log.old) }
{
    match valued(alloc, answers, log, scope, Place::of(t), ty)? {
        None => Ok(None),
        Some(ty) => {
            let step = Step::Global(symbol, ty.clone()?);
            let value = typed_by(alloc, ty, step)?;
            Ok(Some(value))
        }
    }
}

/// A name as a value. A member goes through `self`.
#[tactic(auto, using(crate::proofs::CheckLaws::bind))]
pub fn name_value<A: Answers>(
    alloc: Global,
    answers: &A,
    log: &mut Log,
    scope: &Scope,
    t: &Leaf,
    named: Named,
) -> Result<Option<Typed>, NoMemory>
    ensures { IfOk result (λ got. (got, log.new) ≡ made orders (A.meanings answers.now) (spec.name_value scope.now t.now named) log.old) }
{
    match named {
        Named::Local(local) => {
            let value = local_value(alloc, answers, log, scope, t, local.number, local.ty)?;
            Ok(value)
        }
        Named::Global(key, _, ty) => {
            let value = global_value(alloc, answers, log, scope, t, key.name, ty)?;
            Ok(value)
        }
        Named::OfSelf(key, _, ty) => match self_value(alloc, answers, log, scope, t)? {
            None => Ok(None),
            Some(base) => {
                let value = property(alloc, answers, log, scope, Place::of(t), base, &key, ty)?;
                Ok(value)
            }
        },
    }
}

/// A name alone.
#[tactic(auto, using(crate::proofs::CheckLaws::bind))]
pub fn name_check<A: Answers>(
    alloc: Global,
    answers: &A,
    log: &mut Log,
    scope: &Scope,
    t: &Leaf,
) -> Result<Option<Typed>, NoMemory>
    ensures { IfOk result (λ got. (got, log.new) ≡ made orders (A.meanings answers.now) (spec.name_check scope.now t.now) log.old) }
{
    match name_of(alloc, answers, log, scope, t)? {
        None => Ok(None),
        Some(named) => {
            let value = name_value(alloc, answers, log, scope, t, named)?;
            Ok(value)
        }
    }
}
