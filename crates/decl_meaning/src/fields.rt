//! The fields of a struct, one after another.

ghost use Rattle.std.specs.Prelude.{◌≡◌, ◌≤◌, ◌+◌, Some, IfOk};
ghost use Rattle.type_infer.specs.Readings as spec;
ghost use Rattle.decl_meaning.specs.Asking.{items_in};

use crate::stored::Measured;
use dep_key::NoMemory;
use std::alloc::Global;
use type_rules::{Field, Fields, Meaning};

/// The most words that a struct has.
const MOST_WORDS: u64 = 1_048_576;

/// A stored property as a field, behind so many words.
fn field_at(stored: Measured, offset: u64) -> Field
    ensures { result ≡ record { name = stored.name; ty = stored.ty; mutable = stored.mutable; has_value = stored.has_value; offset = offset } }
{
    Field {
        name: stored.name,
        ty: stored.ty,
        mutable: stored.mutable,
        has_value: stored.has_value,
        offset,
    }
}

/// The fields of these stored properties. Where they have more words than a struct has, the struct is broken.
#[tactic(auto, using(crate::proofs::FieldLemmas::too_large, crate::proofs::FieldLemmas::within))]
fn laid_out(alloc: Global, found: Vec<Measured>) -> Result<Meaning, NoMemory>
    ensures { IfOk result (λ m. m ≡ spec.fields_meaning (Some found.items)) }
{
    let mut fields = Vec::new(alloc);
    let mut offset = 0u64;
    for stored in found {
        let words = stored.words;
        if words > MOST_WORDS - offset {
            return Ok(Meaning::Broken);
        }
        fields.push(field_at(stored, offset))?;
        offset += words;
    }
    Ok(Meaning::Fields {
        fields: Fields::from_vec(fields),
        words: offset,
    })
}

/// What the stored properties of a struct mean. Where one has no type of known size, the struct is broken.
pub fn fields_meaning(alloc: Global, found: Option<Vec<Measured>>) -> Result<Meaning, NoMemory>
    ensures { IfOk result (λ m. m ≡ spec.fields_meaning (items_in found)) }
{
    match found {
        None => Ok(Meaning::Broken),
        Some(found) => {
            let meaning = laid_out(alloc, found)?;
            Ok(meaning)
        }
    }
}
