//! The type of an alias, which is looked up and is no use.

ghost use Rattle.std.specs.Prelude.{◌≡◌, IfOk, OnOk};
ghost use Rattle.std.specs.Option.{option_copied};
ghost use Rattle.checks.specs.Logs.{saying};
ghost use Rattle.expr_check.specs.Messages.{orders};
ghost use Rattle.expr_check.specs.Types.{built_in_type};
ghost use Rattle.dep_key.specs.KeyBuilders.{top_level, key_name};
ghost use Rattle.file_check.specs.OwnTypes as spec;

use crate::say::{say_ambiguous, say_not_a_type, say_type_not_found};
use dep_key::{Key, NoMemory, key_name};
use expr_check::{Log, Place, say_has_errors};
use std::alloc::Global;
use swift_ast::Leaf;
use type_rules::{Answers, Meaning, Ty};

/// What a key means that has a provider.
fn meant(meaning: &Meaning) -> Option<&Meaning>
    ensures { option_copied result ≡ spec.meant meaning.now }
{
    match meaning {
        Meaning::NoProvider => None,
        _ => Some(meaning),
    }
}

/// What the key of a name means, where its file keeps it to itself or not.
fn meant_at<'a, A: Answers>(
    alloc: Global,
    answers: &'a A,
    path: &str,
    private: bool,
    name: &str,
) -> Result<Option<&'a Meaning>, NoMemory>
    ensures { IfOk result (λ got. option_copied got ≡ spec.meant (A.meanings answers.now (top_level (key_name path.now private name.now)))) }
{
    let key = Key::top_level(key_name(alloc, path, private, name)?);
    let meaning = answers.meaning(&key);
    Ok(meant(meaning))
}

/// What a name means outside structs and extensions, in the file of a path.
fn first_meant<'a, A: Answers>(
    alloc: Global,
    answers: &'a A,
    path: &str,
    name: &str,
) -> Result<Option<&'a Meaning>, NoMemory>
    ensures { IfOk result (λ got. option_copied got ≡ spec.first_meant (A.meanings answers.now) path.now name.now) }
{
    match meant_at(alloc, answers, path, true, name)? {
        Some(meaning) => Ok(Some(meaning)),
        None => {
            let other = meant_at(alloc, answers, path, false, name)?;
            Ok(other)
        }
    }
}

/// The built-in type of a name.
fn built_in_type(name: &str) -> Option<Ty>
    ensures { result ≡ built_in_type name.now }
{
    match name {
        "Int" => Some(Ty::Int),
        "String" => Some(Ty::String),
        "Bool" => Some(Ty::Bool),
        "Void" => Some(Ty::Void),
        _ => None,
    }
}

/// Says that there is no such type, unless it is built in.
fn say_unless_built_in(alloc: Global, log: &mut Log, t: &Leaf) -> Result<(), NoMemory>
    ensures { OnOk result (log.new ≡ saying orders log.old (spec.built_in_lines t.now (built_in_type t.now.text))) }
{
    match built_in_type(t.text.as_str()) {
        Some(_) => Ok(()),
        None => {
            say_type_not_found(alloc, log, Place::of(t), t.text.as_str())?;
            Ok(())
        }
    }
}

/// Says what is wrong with a type's name that means something.
fn say_meaning(alloc: Global, log: &mut Log, t: &Leaf, meaning: &Meaning) -> Result<(), NoMemory>
    ensures { OnOk result (log.new ≡ saying orders log.old (spec.meaning_lines t.now meaning.now)) }
{
    match meaning {
        Meaning::Ambiguous => {
            say_ambiguous(alloc, log, Place::of(t), t.text.as_str())?;
            Ok(())
        }
        Meaning::Broken | Meaning::Circular => {
            say_has_errors(alloc, log, Place::of(t), t.text.as_str())?;
            Ok(())
        }
        Meaning::Struct { .. } => Ok(()),
        Meaning::Alias { .. } => Ok(()),
        _ => {
            say_not_a_type(alloc, log, Place::of(t), t.text.as_str())?;
            Ok(())
        }
    }
}

/// Says what is wrong with a type's name in the file of a path, whose keys are not noted.
pub fn check_own_type<A: Answers>(
    alloc: Global,
    answers: &A,
    log: &mut Log,
    path: &str,
    t: &Leaf,
) -> Result<(), NoMemory>
    ensures { OnOk result (log.new ≡ saying orders log.old (spec.type_lines t.now (spec.first_meant (A.meanings answers.now) path.now t.now.text))) }
{
    match first_meant(alloc, answers, path, t.text.as_str())? {
        None => {
            say_unless_built_in(alloc, log, t)?;
            Ok(())
        }
        Some(meaning) => {
            say_meaning(alloc, log, t, meaning)?;
            Ok(())
        }
    }
}
