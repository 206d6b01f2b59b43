ghost use Rattle.std.specs.Prelude.{◌≡◌};
ghost use Rattle.std.specs.Cmp.{partial_equiv_from_equiv};
ghost use Rattle.type_rules.specs.Sameness.{same_meaning, same_meaning_equiv, same_parameter, same_parameter_equiv, same_field, same_field_equiv};

use crate::{Fields, Parameters, Ty};
use dep_key::Name;
use std::alloc::AllocError;

/// What the declarations of a module say of a key.
#[derive(Debug, Drop)]
pub enum Meaning {
    /// No declaration has the key.
    NoProvider,

    /// Several declarations have the key.
    Ambiguous,

    /// The declaration that has the key has an error, or needs something that is broken.
    Broken,

    /// The declaration that has the key needs itself, or something that is circular.
    Circular,

    /// A global, or a member that is stored or computed.
    Value {
        /// Whether it may be assigned to.
        mutable: bool,
        ty: Ty,
    },

    /// A function or a method.
    Function {
        /// In the order in which they are declared.
        params: Parameters,
        /// The type of what it returns, `Void` where it returns no value.
        result: Ty,
    },

    /// The name of a struct.
    Struct {
        context: Name,
    },

    /// Another name of a type.
    Alias {
        ty: Ty,
    },

    /// The stored properties of a struct.
    Fields {
        /// In the order in which they are declared.
        fields: Fields,
        /// The words of all fields together.
        words: u64,
    },
}

/// A parameter of a function as its callers see it.
#[derive(Debug, Drop)]
pub struct Parameter {
    /// The word that an argument has before it, and `_` where it has none.
    pub label: Name,
    pub ty: Ty,
}

/// A stored property of a struct.
#[derive(Debug, Drop)]
pub struct Field {
    /// The name that the field has in keys.
    pub name: Name,
    pub ty: Ty,
    /// Whether it may be assigned to.
    pub mutable: bool,
    /// Whether its declaration gives it a value.
    pub has_value: bool,
    /// The words of the fields before it.
    pub offset: u64,
}

impl Clone for Parameter {
    ghost is_clone = { λ parameter copy. copy ≡ parameter };

    fn clone(&self) -> Result<Parameter, AllocError> {
        let label = self.label.clone()?;
        let ty = self.ty.clone()?;
        Ok(Parameter { label, ty })
    }
}

impl PartialEq for Parameter {
    ghost eq = { same_parameter };

    ghost laws = { partial_equiv_from_equiv same_parameter_equiv };

    fn eq(&self, other: &Parameter) -> bool {
        self.label == other.label && self.ty == other.ty
    }
}

impl Eq for Parameter {
    ghost laws = { same_parameter_equiv };
}

impl Clone for Field {
    ghost is_clone = { λ field copy. copy ≡ field };

    fn clone(&self) -> Result<Field, AllocError> {
        let name = self.name.clone()?;
        let ty = self.ty.clone()?;
        Ok(Field {
            name,
            ty,
            mutable: self.mutable,
            has_value: self.has_value,
            offset: self.offset,
        })
    }
}

impl PartialEq for Field {
    ghost eq = { same_field };

    ghost laws = { partial_equiv_from_equiv same_field_equiv };

    fn eq(&self, other: &Field) -> bool {
        let are_same_bindings = self.mutable == other.mutable
            && (self.has_value == other.has_value && self.offset == other.offset);
        self.name == other.name && (self.ty == other.ty && are_same_bindings)
    }
}

impl Eq for Field {
    ghost laws = { same_field_equiv };
}

impl Clone for Meaning {
    ghost is_clone = { λ meaning copy. copy ≡ meaning };

    fn clone(&self) -> Result<Meaning, AllocError> {
        match self {
            Meaning::NoProvider => Ok(Meaning::NoProvider),
            Meaning::Ambiguous => Ok(Meaning::Ambiguous),
            Meaning::Broken => Ok(Meaning::Broken),
            Meaning::Circular => Ok(Meaning::Circular),
            Meaning::Value { mutable, ty } => {
                let ty = ty.clone()?;
                Ok(Meaning::Value {
                    mutable: *mutable,
                    ty,
                })
            }
            Meaning::Function { params, result } => {
                let params = params.clone()?;
                let result = result.clone()?;
                Ok(Meaning::Function { params, result })
            }
            Meaning::Struct { context } => {
                let context = context.clone()?;
                Ok(Meaning::Struct { context })
            }
            Meaning::Alias { ty } => {
                let ty = ty.clone()?;
                Ok(Meaning::Alias { ty })
            }
            Meaning::Fields { fields, words } => {
                let fields = fields.clone()?;
                Ok(Meaning::Fields {
                    fields,
                    words: *words,
                })
            }
        }
    }
}

impl PartialEq for Meaning {
    ghost eq = { same_meaning };

    ghost laws = { partial_equiv_from_equiv same_meaning_equiv };

    fn eq(&self, other: &Meaning) -> bool {
        match (self, other) {
            (Meaning::NoProvider, Meaning::NoProvider) => true,
            (Meaning::Ambiguous, Meaning::Ambiguous) => true,
            (Meaning::Broken, Meaning::Broken) => true,
            (Meaning::Circular, Meaning::Circular) => true,
            (Meaning::Value { mutable: m, ty: s }, Meaning::Value { mutable: n, ty: t }) => *m == *n
                && s == t,
            (
                Meaning::Function {
                    params: ps,
                    result: s,
                },
                Meaning::Function {
                    params: qs,
                    result: t,
                },
            ) => ps == qs && s == t,
            (Meaning::Struct { context: c }, Meaning::Struct { context: d }) => c == d,
            (Meaning::Alias { ty: s }, Meaning::Alias { ty: t }) => s == t,
            (
                Meaning::Fields {
                    fields: fs,
                    words: m,
                },
                Meaning::Fields {
                    fields: gs,
                    words: n,
                },
            ) => fs == gs && *m == *n,
            _ => false,
        }
    }
}

impl Eq for Meaning {
    ghost laws = { same_meaning_equiv };
}
