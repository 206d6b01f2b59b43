//! Globals, properties, aliases and functions.

ghost use Rattle.std.specs.Prelude.{◌≡◌, IfOk};
ghost use Rattle.std.specs.Option.{option_copied};
ghost use Rattle.type_infer.specs.Readings as spec;
ghost use Rattle.decl_meaning.specs.Asking.{read, items_in};

use crate::AskedKeys;
use crate::asked::{value_type, written_type};
use dep_key::NoMemory;
use std::alloc::Global;
use swift_ast::{BindingSpecifier, Expr, Leaf, StoredValue, TypeName};
use type_rules::{Answers, Meaning, Parameter, Parameters, Ty};

/// Whether a binding may be assigned to.
pub fn is_var(specifier: &BindingSpecifier) -> bool
    ensures { result ≡ spec.is_var specifier.now }
{
    match specifier {
        BindingSpecifier::Let(_) => false,
        BindingSpecifier::Var(_) => true,
    }
}

/// The written type of a global, and where none is written that of its initial value.
pub fn global_type<A: Answers>(
    alloc: Global,
    answers: &A,
    asked: &mut AskedKeys,
    path: &str,
    annotation: &Option<(Leaf, TypeName)>,
    value: &Expr,
) -> Result<Option<Ty>, NoMemory>
    ensures { IfOk result (λ got. (got, asked.new) ≡ read (A.meanings answers.now) (spec.global_type path.now annotation.now value.now) asked.old) }
{
    match annotation {
        Some((_, type_name)) => {
            let ty = written_type(alloc, answers, asked, path, type_name)?;
            Ok(ty)
        }
        None => {
            let ty = value_type(alloc, answers, asked, path, value)?;
            Ok(ty)
        }
    }
}

/// The written type of a stored property, and where none is written that of its initial value.
pub fn stored_type<A: Answers>(
    alloc: Global,
    answers: &A,
    asked: &mut AskedKeys,
    path: &str,
    value: &StoredValue,
) -> Result<Option<Ty>, NoMemory>
    ensures { IfOk result (λ got. (got, asked.new) ≡ read (A.meanings answers.now) (spec.stored_type path.now value.now) asked.old) }
{
    match value {
        StoredValue::Typed(_, type_name, _) => {
            let ty = written_type(alloc, answers, asked, path, type_name)?;
            Ok(ty)
        }
        StoredValue::Inferred(_, value) => {
            let ty = value_type(alloc, answers, asked, path, value)?;
            Ok(ty)
        }
    }
}

/// The type of what a function returns, `Void` where none is written.
pub fn result_type<A: Answers>(
    alloc: Global,
    answers: &A,
    asked: &mut AskedKeys,
    path: &str,
    written: &Option<(Leaf, TypeName)>,
) -> Result<Option<Ty>, NoMemory>
    ensures { IfOk result (λ got. (got, asked.new) ≡ read (A.meanings answers.now) (spec.result_query path.now written.now) asked.old) }
{
    match written {
        None => Ok(Some(Ty::Void)),
        Some((_, type_name)) => {
            let ty = written_type(alloc, answers, asked, path, type_name)?;
            Ok(ty)
        }
    }
}

/// What a value of a type means.
pub fn value_meaning(mutable: bool, ty: Option<Ty>) -> Meaning
    ensures { result ≡ spec.value_meaning mutable ty }
{
    match ty {
        Some(ty) => Meaning::Value { mutable, ty },
        None => Meaning::Broken,
    }
}

/// What another name of a type means.
pub fn alias_meaning(ty: Option<Ty>) -> Meaning
    ensures { result ≡ spec.alias_meaning ty }
{
    match ty {
        Some(ty) => Meaning::Alias { ty },
        None => Meaning::Broken,
    }
}

/// What a function means.
pub fn function_meaning(params: Option<Vec<Parameter>>, result_type: Option<Ty>) -> Meaning
    ensures { result ≡ spec.function_meaning (items_in params) result_type }
{
    match params {
        None => Meaning::Broken,
        Some(params) => match result_type {
            None => Meaning::Broken,
            Some(result) => Meaning::Function {
                params: Parameters::from_vec(params),
                result,
            },
        },
    }
}
