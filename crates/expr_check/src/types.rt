//! What names of types mean, and the layouts that values need.

ghost use Rattle.std.specs.Prelude.{◌≡◌, IfOk, OnOk, Some};
ghost use Rattle.std.specs.Option.{option_copied};
ghost use Rattle.checks.specs.Logs.{asking, made};
ghost use Rattle.type_rules.specs.declared.meaning.Meaning.{Meaning};
ghost use Rattle.expr_check.specs.Messages.{orders};
ghost use Rattle.expr_check.specs.Found.{found_view};
ghost use Rattle.expr_check.specs.Types as spec;
ghost use Rattle.type_rules.specs.Shown.{before_path};

use crate::say::{say_ambiguous, say_has_errors, say_not_a_type, say_type_not_found};
use crate::{Log, Place, Scope};
use dep_key::{Key, Name, NoMemory, key_name};
use std::alloc::Global;
use swift_ast::Leaf;
use type_rules::{Answers, Meaning, Ty};

/// A key that has a provider, and what it means.
#[derive(Drop)]
pub struct Found<'a> {
    pub key: Key,
    pub meaning: &'a Meaning,
}

/// Asks what a key means.
pub fn fetch<'a, A: Answers>(
    answers: &'a A,
    log: &mut Log,
    key: &Key,
) -> Result<&'a Meaning, NoMemory>
    ensures means { IfOk result (λ m. m.now ≡ A.meanings answers.now key.now) }
    ensures asked { OnOk result (log.new ≡ asking orders log.old key.now) }
{
    log.ask(key)?;
    let means = answers.meaning(key);
    Ok(means)
}

/// The first of the keys that has a provider.
#[tactic(auto, using(crate::proofs::LookUpLemmas::one_missing, crate::proofs::LookUpLemmas::one_there), unfolding(crate::specs::Types::look_up))]
pub fn look_up<'a, A: Answers>(
    answers: &'a A,
    log: &mut Log,
    keys: Vec<Key>,
) -> Result<Option<Found<'a>>, NoMemory>
    ensures { IfOk result (λ got. (Some (found_view got), log.new) ≡ made orders (A.meanings answers.now) (spec.look_up keys.items) log.old) }
{
    for key in keys {
        let meaning = fetch(answers, log, &key)?;
        match meaning {
            Meaning::NoProvider => {}
            _ => return Ok(Some(Found { key, meaning })),
        }
    }
    Ok(None)
}

/// What a name was found to mean, where it can be used.
pub fn usable<'a, A: Answers>(
    alloc: Global,
    answers: &A,
    log: &mut Log,
    t: &Leaf,
    meaning: &'a Meaning,
) -> Result<Option<&'a Meaning>, NoMemory>
    ensures { IfOk result (λ got. (option_copied got, log.new) ≡ made orders (A.meanings answers.now) (spec.usable t.now meaning.now) log.old) }
{
    match meaning {
        Meaning::Ambiguous => {
            say_ambiguous(alloc, log, Place::of(t), t.text.as_str())?;
            Ok(None)
        }
        Meaning::Broken | Meaning::Circular => {
            say_has_errors(alloc, log, Place::of(t), t.text.as_str())?;
            Ok(None)
        }
        _ => Ok(Some(meaning)),
    }
}

/// The type that a declaration gives.
fn type_meant<A: Answers>(
    alloc: Global,
    answers: &A,
    log: &mut Log,
    t: &Leaf,
    meaning: &Meaning,
) -> Result<Option<Ty>, NoMemory>
    ensures { IfOk result (λ got. (got, log.new) ≡ made orders (A.meanings answers.now) (spec.type_meant t.now meaning.now) log.old) }
{
    match meaning {
        Meaning::Struct { context } => {
            let context = context.clone()?;
            Ok(Some(Ty::Struct(context)))
        }
        Meaning::Alias { ty } => {
            let ty = ty.clone()?;
            Ok(Some(ty))
        }
        _ => {
            say_not_a_type(alloc, log, Place::of(t), t.text.as_str())?;
            Ok(None)
        }
    }
}

/// The built-in type of a name.
fn built_in_type(name: &str) -> Option<Ty>
    ensures { result ≡ spec.built_in_type name.now }
{
    match name {
        "Int" => Some(Ty::Int),
        "String" => Some(Ty::String),
        "Bool" => Some(Ty::Bool),
        "Void" => Some(Ty::Void),
        _ => None,
    }
}

/// A type that no declaration gives.
fn built_in<A: Answers>(
    alloc: Global,
    answers: &A,
    log: &mut Log,
    t: &Leaf,
) -> Result<Option<Ty>, NoMemory>
    ensures { IfOk result (λ got. (got, log.new) ≡ made orders (A.meanings answers.now) (spec.built_in t.now) log.old) }
{
    match built_in_type(t.text.as_str()) {
        Some(ty) => Ok(Some(ty)),
        None => {
            say_type_not_found(alloc, log, Place::of(t), t.text.as_str())?;
            Ok(None)
        }
    }
}

/// The keys of a name outside structs and extensions: as its file keeps it to itself, and as the module has it.
pub fn top_keys(alloc: Global, path: &str, name: &str) -> Result<Vec<Key>, NoMemory>
    ensures { IfOk result (λ keys. keys.items ≡ spec.top_keys path.now name.now) }
{
    let own = key_name(alloc, path, true, name)?;
    let shared = key_name(alloc, path, false, name)?;
    let mut keys = Vec::new(alloc);
    keys.push(Key::top_level(own))?;
    keys.push(Key::top_level(shared))?;
    Ok(keys)
}

/// The keys of a member of a context, in the same order.
pub fn member_keys(
    alloc: Global,
    path: &str,
    context: &Name,
    name: &str,
) -> Result<Vec<Key>, NoMemory>
    ensures { IfOk result (λ keys. keys.items ≡ spec.member_keys path.now context.now name.now) }
{
    let own = key_name(alloc, path, true, name)?;
    let shared = key_name(alloc, path, false, name)?;
    let mut keys = Vec::new(alloc);
    keys.push(Key::member(context.clone()?, own))?;
    keys.push(Key::member(context.clone()?, shared))?;
    Ok(keys)
}

/// The type that a name means in the file of a path. What is wrong with the name is said, and there is no type then.
#[tactic(auto, using(crate::proofs::CheckLaws::bind))]
pub fn type_named<A: Answers>(
    alloc: Global,
    answers: &A,
    log: &mut Log,
    path: &str,
    t: &Leaf,
) -> Result<Option<Ty>, NoMemory>
    ensures { IfOk result (λ got. (got, log.new) ≡ made orders (A.meanings answers.now) (spec.type_named path.now t.now) log.old) }
{
    let keys = top_keys(alloc, path, t.text.as_str())?;
    match look_up(answers, log, keys)? {
        None => {
            let ty = built_in(alloc, answers, log, t)?;
            Ok(ty)
        }
        Some(found) => match usable(alloc, answers, log, t, found.meaning)? {
            None => Ok(None),
            Some(meaning) => {
                let ty = type_meant(alloc, answers, log, t, meaning)?;
                Ok(ty)
            }
        },
    }
}

/// A name as it is written, of the name in keys.
pub fn written_name(name: &str) -> &str
    ensures { result.now ≡ before_path name.now }
{
    match name.split_once('@') {
        Some((written, _)) => written,
        None => name,
    }
}

/// The struct of a context, whose stored parts mean something.
fn laid_out_as<A: Answers>(
    alloc: Global,
    answers: &A,
    log: &mut Log,
    at: Place,
    context: &Name,
    meaning: &Meaning,
) -> Result<Option<Ty>, NoMemory>
    ensures { IfOk result (λ got. (got, log.new) ≡ made orders (A.meanings answers.now) (spec.laid_out_as at context.now meaning.now) log.old) }
{
    match meaning {
        Meaning::Broken | Meaning::Circular => {
            say_has_errors(alloc, log, at, written_name(context.as_str()))?;
            Ok(None)
        }
        _ => {
            let context = context.clone()?;
            Ok(Some(Ty::Struct(context)))
        }
    }
}

/// A type whose values can be laid out: the stored parts of a struct are asked for.
pub fn laid_out<A: Answers>(
    alloc: Global,
    answers: &A,
    log: &mut Log,
    at: Place,
    ty: Ty,
) -> Result<Option<Ty>, NoMemory>
    ensures { IfOk result (λ got. (got, log.new) ≡ made orders (A.meanings answers.now) (spec.laid_out at ty) log.old) }
{
    match ty {
        Ty::Struct(context) => {
            let key = Key::nominal(context.clone()?);
            let meaning = fetch(answers, log, &key)?;
            let ty = laid_out_as(alloc, answers, log, at, &context, meaning)?;
            Ok(ty)
        }
        other => Ok(Some(other)),
    }
}

/// The type of a value in an expression or a target that begins at a place. Its layout is needed where the value is emitted.
pub fn valued<A: Answers>(
    alloc: Global,
    answers: &A,
    log: &mut Log,
    scope: &Scope,
    at: Place,
    ty: Ty,
) -> Result<Option<Ty>, NoMemory>
    ensures { IfOk result (λ got. (got, log.new) ≡ made orders (A.meanings answers.now) (spec.valued scope.now at ty) log.old) }
{
    if scope.emits {
        let ty = laid_out(alloc, answers, log, at, ty)?;
        Ok(ty)
    } else {
        Ok(Some(ty))
    }
}

/// A written type of a parameter, a local, a result or a property. It stays the type where it can't be laid out.
#[tactic(auto, using(crate::proofs::CheckLaws::bind, crate::proofs::CheckLaws::noted))]
pub fn type_written<A: Answers>(
    alloc: Global,
    answers: &A,
    log: &mut Log,
    scope: &Scope,
    t: &Leaf,
) -> Result<Option<Ty>, NoMemory>
    ensures { IfOk result (λ got. (got, log.new) ≡ made orders (A.meanings answers.now) (spec.type_written scope.now t.now) log.old) }
{
    match type_named(alloc, answers, log, scope.path.as_str(), t)? {
        None => Ok(None),
        Some(ty) => {
            valued(alloc, answers, log, scope, Place::of(t), ty.clone()?)?;
            Ok(Some(ty))
        }
    }
}
