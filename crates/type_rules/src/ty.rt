ghost use Rattle.std.specs.Prelude.{◌≡◌};
ghost use Rattle.std.specs.Cmp.{partial_equiv_from_equiv};
ghost use Rattle.type_rules.specs.Sameness.{same_type, same_type_equiv};
ghost use Rattle.type_rules.specs.Shown.{shown_type, before_path};

use dep_key::Name;
use std::alloc::AllocError;

/// A type. Two types are equal or differ: no value of one type is taken where another is asked for.
#[derive(Debug, Drop)]
pub enum Ty {
    /// An integer.
    Int,

    /// A string.
    String,

    /// `true` or `false`.
    Bool,

    /// What a function gives that returns no value.
    Void,

    /// The struct of a context: its name, and for one that its file alone sees `@` and the path of the
    /// file behind it.
    Struct(Name),
}

impl Ty {
    /// The type as messages show it: `Int`, `String`, `Bool`, `Void`, or the name of a struct, without the
    /// path of its file.
    pub fn shown(&self) -> &str
        ensures { result.now ≡ shown_type self.now }
    {
        match self {
            Ty::Int => "Int",
            Ty::String => "String",
            Ty::Bool => "Bool",
            Ty::Void => "Void",
            Ty::Struct(context) => name_of(context.as_str()),
        }
    }
}

impl Clone for Ty {
    ghost is_clone = { λ ty copy. copy ≡ ty };

    fn clone(&self) -> Result<Ty, AllocError> {
        match self {
            Ty::Int => Ok(Ty::Int),
            Ty::String => Ok(Ty::String),
            Ty::Bool => Ok(Ty::Bool),
            Ty::Void => Ok(Ty::Void),
            Ty::Struct(context) => {
                let context = context.clone()?;
                Ok(Ty::Struct(context))
            }
        }
    }
}

impl PartialEq for Ty {
    ghost eq = { same_type };

    ghost laws = { partial_equiv_from_equiv same_type_equiv };

    fn eq(&self, other: &Ty) -> bool {
        match (self, other) {
            (Ty::Int, Ty::Int) => true,
            (Ty::String, Ty::String) => true,
            (Ty::Bool, Ty::Bool) => true,
            (Ty::Void, Ty::Void) => true,
            (Ty::Struct(one), Ty::Struct(two)) => one == two,
            _ => false,
        }
    }
}

impl Eq for Ty {
    ghost laws = { same_type_equiv };
}

/// The name of a struct, which stands before the first `@` of its context.
fn name_of(context: &str) -> &str
    ensures { result.now ≡ before_path context.now }
{
    match context.split_once('@') {
        Some((name, _)) => name,
        None => context,
    }
}
