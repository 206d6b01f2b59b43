//! The sizes of types.

ghost use Rattle.std.specs.Prelude.{◌≡◌, true, IfOk, OnErr};
ghost use Rattle.type_rules.specs.Sizes.{field_words, is_struct, words_of};

use crate::{Answers, Meaning, Ty};
use dep_key::{Key, NoMemory};
use std::alloc::Global;

/// The words of the fields that a key means.
fn field_words(meaning: &Meaning) -> Option<u64>
    ensures { result ≡ field_words meaning.now }
{
    match meaning {
        Meaning::Fields { words, .. } => Some(*words),
        _ => None,
    }
}

/// The words that a value of a type takes, those of a struct from its fields. `None` comes exactly where the
/// key of the stored properties of the struct does not mean fields.
///
/// An error says that memory was wanted and not there; it comes for structs alone.
pub fn words<A: Answers>(alloc: Global, ty: &Ty, answers: &A) -> Result<Option<u64>, NoMemory>
    ensures words { IfOk result (λ found. found ≡ words_of (A.meanings answers.now) ty.now) }
    ensures memory { OnErr result (is_struct ty.now ≡ true) }
{
    match ty {
        Ty::Int => Ok(Some(1)),
        Ty::String => Ok(Some(2)),
        Ty::Bool => Ok(Some(1)),
        Ty::Void => Ok(Some(0)),
        Ty::Struct(context) => {
            let key = Key::nominal(context.clone()?);
            let words = field_words(answers.meaning(&key));
            Ok(words)
        }
    }
}
