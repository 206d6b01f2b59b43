//! Sizes, offsets and slots, in words. A sum of 2^64 words and more is answered as want of memory.

ghost use Rattle.std.specs.Prelude.{◌≡◌, ◌+◌, ◌++◌, take, IfOk};
ghost use Rattle.object_emit.specs.Layouts as spec;

use dep_key::{Key, Name, NoMemory};
use std::alloc::Global;
use type_rules::{Answers, Field, Meaning, Ty};

/// A sum, where it has room.
pub fn sum(a: u64, b: u64) -> Result<u64, NoMemory>
    ensures { IfOk result (λ n. n ≡ a + b) }
{
    if b > u64::MAX - a {
        return Err(NoMemory);
    }
    Ok(a + b)
}

/// The words of a type; 0 where they aren't known.
pub fn words<A: Answers>(alloc: Global, answers: &A, ty: &Ty) -> Result<u64, NoMemory>
    ensures { IfOk result (λ w. w ≡ spec.words (A.meanings answers.now) ty.now) }
{
    match type_rules::words(alloc, ty, answers)? {
        Some(words) => Ok(words),
        None => Ok(0),
    }
}

/// The words of values of these types together.
#[tactic(auto, unfolding(crate::specs::Layouts::total))]
pub fn total<A: Answers>(alloc: Global, answers: &A, types: &[Ty]) -> Result<u64, NoMemory>
    ensures { IfOk result (λ w. w ≡ spec.total (A.meanings answers.now) types.now) }
{
    let mut so_far = 0u64;
    for ty in types {
        so_far = sum(so_far, words(alloc, answers, ty)?)?;
    }
    Ok(so_far)
}

/// The slots at which values of these types begin, which stand one behind the other from a slot on.
pub fn slots<A: Answers>(
    alloc: Global,
    answers: &A,
    first: u64,
    types: &[Ty],
) -> Result<Vec<u64>, NoMemory>
    ensures { IfOk result (λ slots. slots.items ≡ spec.slots_from (A.meanings answers.now) first types.now) }
{
    let mut slots = Vec::new(alloc);
    let mut next = first;
    for ty in types {
        slots.push(next)?;
        next = sum(next, words(alloc, answers, ty)?)?;
    }
    Ok(slots)
}

/// The slot of a parameter or a local, by its number.
pub fn slot(slots: &[u64], number: u32) -> u64
    ensures { result ≡ spec.slot_in slots.now number }
{
    match slots.get(number as usize) {
        Some(slot) => *slot,
        None => 0,
    }
}

/// The first types of a list.
pub fn first_types(types: &[Ty], count: u32) -> &[Ty]
    ensures { result.now ≡ take count types.now }
{
    let count = count as usize;
    if count < types.len() {
        &types[..count]
    } else {
        types
    }
}

/// The words of `self`, where there is one.
pub fn receiver_words<A: Answers>(
    alloc: Global,
    answers: &A,
    receiver: &Option<Ty>,
) -> Result<u64, NoMemory>
    ensures { IfOk result (λ w. w ≡ spec.receiver_words (A.meanings answers.now) receiver.now) }
{
    match receiver {
        None => Ok(0),
        Some(ty) => {
            let words = words(alloc, answers, ty)?;
            Ok(words)
        }
    }
}

/// The words of the struct of a context; 0 where they aren't known.
pub fn struct_words<A: Answers>(answers: &A, context: &Name) -> Result<u64, NoMemory>
    ensures { IfOk result (λ w. w ≡ spec.struct_words (A.meanings answers.now) context.now) }
{
    let key = Key::nominal(context.clone()?);
    match answers.meaning(&key) {
        Meaning::Fields { words, .. } => Ok(*words),
        _ => Ok(0),
    }
}

/// The offset of the field of a name.
fn offset_in(fields: &[Field], name: &Name) -> Option<u64>
    ensures { result ≡ spec.offset_in fields.now name.now }
{
    for field in fields {
        if field.name == *name {
            return Some(field.offset);
        }
    }
    None
}

/// The offset of a stored property in the struct of a context; none where it is no stored property.
pub fn offset_of<A: Answers>(
    answers: &A,
    context: &Name,
    name: &Name,
) -> Result<Option<u64>, NoMemory>
    ensures { IfOk result (λ offset. offset ≡ spec.offset_of (A.meanings answers.now) context.now name.now) }
{
    let key = Key::nominal(context.clone()?);
    match answers.meaning(&key) {
        Meaning::Fields { fields, .. } => {
            let offset = offset_in(fields.as_slice(), name);
            Ok(offset)
        }
        _ => Ok(None),
    }
}

/// How far inside its struct a member stands.
fn member_offset<A: Answers>(answers: &A, member: &(Name, Name)) -> Result<u64, NoMemory>
    ensures { IfOk result (λ offset. offset ≡ spec.member_offset (A.meanings answers.now) member.now) }
{
    match offset_of(answers, &member.0, &member.1)? {
        Some(offset) => Ok(offset),
        None => Ok(0),
    }
}

/// How far inside a value a member of its members stands.
#[tactic(auto, unfolding(crate::specs::Layouts::offset_along))]
pub fn offset_along<A: Answers>(answers: &A, members: &[(Name, Name)]) -> Result<u64, NoMemory>
    ensures { IfOk result (λ offset. offset ≡ spec.offset_along (A.meanings answers.now) members.now) }
{
    let mut so_far = 0u64;
    for member in members {
        so_far = sum(so_far, member_offset(answers, member)?)?;
    }
    Ok(so_far)
}
