//! The sizes of structs, which are looked up and are no use.

ghost use Rattle.std.specs.Prelude.{◌≡◌, IfOk, OnOk};
ghost use Rattle.queries.specs.Queries.{value_with};
ghost use Rattle.checks.specs.Logs.{saying};
ghost use Rattle.expr_check.specs.Messages.{orders};
ghost use Rattle.dep_key.specs.KeyBuilders.{member};
ghost use Rattle.body_check.specs.Declarations as spec;
ghost use Rattle.file_check.specs.StructSizes.{added, all_words, size_lines, sized};

use crate::keys::member_key;
use crate::say::say_too_large_if;
use crate::sites::SiteIndex;
use dep_key::{Name, NoMemory};
use expr_check::Log;
use std::alloc::Global;
use swift_ast::{Access, Leaf, Struct, StructMember};
use type_rules::{Answers, Meaning, Ty, words};

/// The words that a struct may have.
const MOST_WORDS: u64 = 1048576;

/// The words of a type, if they are known.
#[tactic(auto, using(crate::proofs::SizeLemmas::words_value))]
fn type_words<A: Answers>(alloc: Global, answers: &A, ty: &Ty) -> Result<Option<u64>, NoMemory>
    ensures { IfOk result (λ got. got ≡ (value_with (A.meanings answers.now) (spec.words ty.now)).value) }
{
    let found = words(alloc, ty, answers)?;
    Ok(found)
}

/// The words of a property, by what its key means.
fn property_words<A: Answers>(
    alloc: Global,
    answers: &A,
    meaning: &Meaning,
) -> Result<Option<u64>, NoMemory>
    ensures { IfOk result (λ got. got ≡ (value_with (A.meanings answers.now) (spec.property_words meaning.now)).value) }
{
    match meaning {
        Meaning::Value { ty, .. } => {
            let found = type_words(alloc, answers, ty)?;
            Ok(found)
        }
        _ => Ok(None),
    }
}

/// The words of a stored property.
fn stored_words<A: Answers>(
    alloc: Global,
    answers: &A,
    site: &SiteIndex<'_>,
    context: &Name,
    access: &Option<Access>,
    name: &Leaf,
) -> Result<Option<u64>, NoMemory>
    ensures { IfOk result (λ got. got ≡ (value_with (A.meanings answers.now) (spec.property_words (A.meanings answers.now (member context.now (spec.name_in_keys site.now access.now name.now))))).value) }
{
    let key = member_key(alloc, site, context, access, name)?;
    let found = property_words(alloc, answers, answers.meaning(&key))?;
    Ok(found)
}

/// The words of a member of a struct, if it is stored, and if they are known.
fn member_words<A: Answers>(
    alloc: Global,
    answers: &A,
    site: &SiteIndex<'_>,
    context: &Name,
    member: &(Option<Access>, StructMember),
) -> Result<Option<u64>, NoMemory>
    ensures { IfOk result (λ got. got ≡ (value_with (A.meanings answers.now) (spec.member_words site.now context.now member.now)).value) }
{
    match &member.1 {
        StructMember::Stored(tree) => {
            let found = stored_words(alloc, answers, site, context, &member.0, &tree.name)?;
            Ok(found)
        }
        StructMember::Computed(_) => Ok(Some(0)),
        StructMember::Func(_) => Ok(Some(0)),
    }
}

/// The sum of some words, if both are known. One of 2^64 and more has no room.
fn sum(one: Option<u64>, other: Option<u64>) -> Result<Option<u64>, NoMemory>
    ensures { IfOk result (λ got. got ≡ added one other) }
{
    match (one, other) {
        (Some(one), Some(other)) => match one.checked_add(other) {
            Some(both) => Ok(Some(both)),
            None => Err(NoMemory),
        },
        (Some(_), None) => Ok(None),
        (None, _) => Ok(None),
    }
}

/// The words of the stored properties among some members, where each is known.
fn all_words<A: Answers>(
    alloc: Global,
    answers: &A,
    site: &SiteIndex<'_>,
    context: &Name,
    members: &[(Option<Access>, StructMember)],
) -> Result<Option<u64>, NoMemory>
    ensures { IfOk result (λ got. got ≡ all_words (A.meanings answers.now) site.now context.now members.now) }
{
    let mut total = Some(0);
    for member in members {
        let one = member_words(alloc, answers, site, context, member)?;
        total = sum(total, one)?;
    }
    Ok(total)
}

/// Says that a struct is too large, where its words are known.
fn say_size(alloc: Global, log: &mut Log, name: &Leaf, words: Option<u64>) -> Result<(), NoMemory>
    ensures { OnOk result (log.new ≡ saying orders log.old (size_lines name.now words)) }
{
    match words {
        None => Ok(()),
        Some(words) => {
            say_too_large_if(alloc, log, name, words > MOST_WORDS)?;
            Ok(())
        }
    }
}

/// The size of a struct, which is no use. A struct with several declarations has none.
pub fn check_size<A: Answers>(
    alloc: Global,
    answers: &A,
    log: &mut Log,
    site: &SiteIndex<'_>,
    context: &Name,
    tree: &Struct,
    fields: &Meaning,
) -> Result<(), NoMemory>
    ensures { OnOk result (log.new ≡ saying orders log.old (sized (A.meanings answers.now) site.now context.now tree.now fields.now)) }
{
    match fields {
        Meaning::Ambiguous => Ok(()),
        _ => {
            let words = all_words(alloc, answers, site, context, tree.members.as_slice())?;
            say_size(alloc, log, &tree.name, words)?;
            Ok(())
        }
    }
}
