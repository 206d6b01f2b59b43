//! The stored properties of a struct, and their sizes.

ghost use Rattle.std.specs.Prelude.{◌≡◌, ◌++◌, List, IfOk};
ghost use Rattle.type_infer.specs.Readings as spec;
ghost use Rattle.decl_meaning.specs.Asking.{read, items_in, behind};
ghost use Rattle.decl_meaning.specs.Parts.{one_measured};

use crate::AskedKeys;
use crate::found::append_found;
use decl_index::is_private;
use dep_key::{Key, Name, NoMemory, key_name};
use std::alloc::Global;
use std::marker::Model;
use swift_ast::{Access, Stored, StoredValue, StructMember};
use type_rules::{Answers, Meaning, Ty, words};

/// A stored property: its name in keys, and whether it has an initial value.
#[derive(Drop)]
pub struct StoredName {
    name: Name,
    has_value: bool,
}

impl Model for StoredName {
    ghost use Rattle.type_infer.specs.Readings as spec;

    ghost Value = { spec.StoredName };

    ghost view = { λ s. record { name = s.name; has_value = s.has_value } };
}

/// A stored property that has a type of known size.
#[derive(Drop)]
pub struct Measured {
    pub name: Name,
    pub ty: Ty,
    pub mutable: bool,
    pub has_value: bool,
    pub words: u64,
}

impl Model for Measured {
    ghost use Rattle.type_infer.specs.Readings as spec;

    ghost Value = { spec.Measured };

    ghost view = { λ m. record { name = m.name; ty = m.ty; mutable = m.mutable; has_value = m.has_value; words = m.words } };
}

/// Whether a stored property has an initial value.
fn has_value(value: &StoredValue) -> bool
    ensures { result ≡ spec.has_value value.now }
{
    match value {
        StoredValue::Typed(_, _, value) => value.is_some(),
        StoredValue::Inferred(_, _) => true,
    }
}

/// What a stored property is called in keys.
fn stored_name(
    alloc: Global,
    path: &str,
    access: &Option<Access>,
    tree: &Stored,
) -> Result<StoredName, NoMemory>
    ensures { IfOk result (λ s. s ≡ spec.stored_name path.now access.now tree.now.name.text tree.now.value) }
{
    let name = key_name(alloc, path, is_private(access), tree.name.text.as_str())?;
    Ok(StoredName {
        name,
        has_value: has_value(&tree.value),
    })
}

/// The words of a type; the fields of a struct are asked.
#[tactic(auto, unfolding(type_infer::specs::Readings::words_query))]
fn read_words<A: Answers>(
    alloc: Global,
    answers: &A,
    asked: &mut AskedKeys,
    ty: &Ty,
) -> Result<Option<u64>, NoMemory>
    ensures { IfOk result (λ got. (got, asked.new) ≡ read (A.meanings answers.now) (spec.words_query ty.now) asked.old) }
{
    if let Ty::Struct(context) = ty {
        asked.ask(&Key::nominal(context.clone()?))?;
    }
    let words = words(alloc, ty, answers)?;
    Ok(words)
}

/// A stored property of which this is known, where its type has a known size.
#[tactic(auto, using(crate::proofs::PartLemmas::measured_read))]
fn measure<A: Answers>(
    alloc: Global,
    answers: &A,
    asked: &mut AskedKeys,
    stored: StoredName,
    meaning: &Meaning,
) -> Result<Option<Measured>, NoMemory>
    ensures { IfOk result (λ got. (got, asked.new) ≡ read (A.meanings answers.now) (spec.measured_query stored meaning.now) asked.old) }
{
    match meaning {
        Meaning::Value { mutable, ty } => match read_words(alloc, answers, asked, ty)? {
            None => Ok(None),
            Some(words) => {
                let ty = ty.clone()?;
                Ok(Some(Measured {
                    name: stored.name,
                    ty,
                    mutable: *mutable,
                    has_value: stored.has_value,
                    words,
                }))
            }
        },
        _ => Ok(None),
    }
}

/// A stored property of a context, where its type has a known size.
#[tactic(auto, unfolding(crate::specs::Parts::one_measured))]
fn read_measured<A: Answers>(
    alloc: Global,
    answers: &A,
    asked: &mut AskedKeys,
    context: &Name,
    stored: StoredName,
) -> Result<Option<Measured>, NoMemory>
    ensures { IfOk result (λ got. (got, asked.new) ≡ read (A.meanings answers.now) (one_measured context.now stored) asked.old) }
{
    let key = Key::member(context.clone()?, stored.name.clone()?);
    asked.ask(&key)?;
    let found = measure(alloc, answers, asked, stored, answers.meaning(&key))?;
    Ok(found)
}

/// The stored properties with one more member, if it is one.
#[tactic(auto, using(crate::proofs::PartLemmas::measured_step))]
fn with_member<A: Answers>(
    alloc: Global,
    answers: &A,
    asked: &mut AskedKeys,
    path: &str,
    context: &Name,
    before: Option<Vec<Measured>>,
    member: &(Option<Access>, StructMember),
) -> Result<Option<Vec<Measured>>, NoMemory>
    ensures { IfOk result (λ got. (rest : List spec.StoredName) → behind (items_in got) (read (A.meanings answers.now) (spec.all_measured context.now rest) asked.new) ≡ behind (items_in before) (read (A.meanings answers.now) (spec.all_measured context.now (spec.stored_of path.now member.now.0 member.now.1 ++ rest)) asked.old)) }
{
    match &member.1 {
        StructMember::Stored(tree) => {
            let stored = stored_name(alloc, path, &member.0, tree)?;
            let one = read_measured(alloc, answers, asked, context, stored)?;
            let found = append_found(before, one)?;
            Ok(found)
        }
        StructMember::Computed(_) => Ok(before),
        StructMember::Func(_) => Ok(before),
    }
}

/// All stored properties of a struct, where each has a type of known size. Those behind one that has none are read, too.
#[tactic(auto, using(crate::proofs::PartLemmas::behind_nothing, crate::proofs::PartLemmas::behind_end))]
pub fn all_measured<A: Answers>(
    alloc: Global,
    answers: &A,
    asked: &mut AskedKeys,
    path: &str,
    context: &Name,
    members: &[(Option<Access>, StructMember)],
) -> Result<Option<Vec<Measured>>, NoMemory>
    ensures { IfOk result (λ got. (items_in got, asked.new) ≡ read (A.meanings answers.now) (spec.all_measured context.now (spec.stored_in path.now members.now)) asked.old) }
{
    let mut found = Some(Vec::new(alloc));
    for member in members {
        found = with_member(alloc, answers, asked, path, context, found, member)?;
    }
    Ok(found)
}
