//! Lists of parameters and of fields.

ghost use Rattle.std.specs.Prelude.{◌≡◌};
ghost use Rattle.std.specs.Cmp.{partial_equiv_from_equiv};
ghost use Rattle.std.specs.Cmp.Lexicographic.{pointwise, lists_equiv};
ghost use Rattle.type_rules.specs.Sameness.{same_parameter, same_parameter_equiv, same_field, same_field_equiv};

use crate::{Field, Parameter};
use std::alloc::{AllocError, Global};
use std::marker::Model;

/// A `Vec` of parameters that contracts see as the list of them.
#[derive(Debug, Drop)]
pub struct Parameters {
    items: Vec<Parameter>,
}

impl Model for Parameters {
    ghost use Rattle.std.specs.Prelude.{List};
    ghost use Rattle.type_rules.specs.declared.meaning.Parameter.{Parameter};

    ghost Value = { List Parameter };

    ghost view = { λ t. t.items.items };
}

impl Parameters {
    /// The parameters of a vector, which takes no memory.
    pub fn from_vec(items: Vec<Parameter>) -> Parameters
        ensures { result ≡ items.items }
    {
        Parameters { items }
    }

    /// The parameters as a slice.
    pub fn as_slice(&self) -> &[Parameter]
        ensures { result.now ≡ self.now }
    {
        &self.items
    }
}

impl Clone for Parameters {
    ghost is_clone = { λ parameters copy. copy ≡ parameters };

    fn clone(&self) -> Result<Parameters, AllocError> {
        let items = self.items.clone()?;
        Ok(Parameters { items })
    }
}

impl PartialEq for Parameters {
    ghost eq = { pointwise same_parameter };

    ghost laws = { partial_equiv_from_equiv (lists_equiv same_parameter_equiv) };

    fn eq(&self, other: &Parameters) -> bool {
        self.as_slice() == other.as_slice()
    }
}

impl Eq for Parameters {
    ghost laws = { lists_equiv same_parameter_equiv };
}

/// A `Vec` of stored properties that contracts see as the list of them.
#[derive(Debug, Drop)]
pub struct Fields {
    items: Vec<Field>,
}

impl Model for Fields {
    ghost use Rattle.std.specs.Prelude.{List};
    ghost use Rattle.type_rules.specs.declared.meaning.Field.{Field};

    ghost Value = { List Field };

    ghost view = { λ t. t.items.items };
}

impl Fields {
    /// The fields of a vector, which takes no memory.
    pub fn from_vec(items: Vec<Field>) -> Fields
        ensures { result ≡ items.items }
    {
        Fields { items }
    }

    /// The fields as a slice.
    pub fn as_slice(&self) -> &[Field]
        ensures { result.now ≡ self.now }
    {
        &self.items
    }
}

impl Clone for Fields {
    ghost is_clone = { λ fields copy. copy ≡ fields };

    fn clone(&self) -> Result<Fields, AllocError> {
        let items = self.items.clone()?;
        Ok(Fields { items })
    }
}

impl PartialEq for Fields {
    ghost eq = { pointwise same_field };

    ghost laws = { partial_equiv_from_equiv (lists_equiv same_field_equiv) };

    fn eq(&self, other: &Fields) -> bool {
        self.as_slice() == other.as_slice()
    }
}

impl Eq for Fields {
    ghost laws = { lists_equiv same_field_equiv };
}
