//! The parameters of a function.

ghost use Rattle.std.specs.Prelude.{◌≡◌, List, ◌∷◌, map, IfOk};
ghost use Rattle.swift_ast.specs.declared.declarations.Param.{Param};
ghost use Rattle.type_infer.specs.Readings as spec;
ghost use Rattle.decl_meaning.specs.Asking.{read, items_in, behind};
ghost use Rattle.decl_meaning.specs.Parts.{one_param};

use crate::AskedKeys;
use crate::asked::written_type;
use crate::found::append_found;
use dep_key::{Name, NoMemory};
use sqlite_items::Items;
use std::alloc::Global;
use swift_ast::{Leaf, Param};
use type_rules::{Answers, Parameter};

/// The word that an argument has before it.
fn label_of(alloc: Global, param: &Param) -> Result<Name, NoMemory>
    ensures { IfOk result (λ label. label ≡ spec.label_of param.now) }
{
    match &param.label {
        Some(label) => {
            let name = Name::from_str(alloc, label.text.as_str())?;
            Ok(name)
        }
        None => {
            let name = Name::from_str(alloc, param.name.text.as_str())?;
            Ok(name)
        }
    }
}

/// A parameter, where it has a type.
#[tactic(auto, using(crate::proofs::PartLemmas::param_read))]
fn read_param<A: Answers>(
    alloc: Global,
    answers: &A,
    asked: &mut AskedKeys,
    path: &str,
    param: &Param,
) -> Result<Option<Parameter>, NoMemory>
    ensures { IfOk result (λ got. (got, asked.new) ≡ read (A.meanings answers.now) (one_param path.now param.now) asked.old) }
{
    match written_type(alloc, answers, asked, path, &param.type_name)? {
        None => Ok(None),
        Some(ty) => {
            let label = label_of(alloc, param)?;
            Ok(Some(Parameter { label, ty }))
        }
    }
}

/// The parameters with one more.
#[tactic(auto, using(crate::proofs::PartLemmas::param_step))]
fn with_param<A: Answers>(
    alloc: Global,
    answers: &A,
    asked: &mut AskedKeys,
    path: &str,
    before: Option<Vec<Parameter>>,
    param: &Param,
) -> Result<Option<Vec<Parameter>>, NoMemory>
    ensures { IfOk result (λ got. (rest : List Param) → behind (items_in got) (read (A.meanings answers.now) (spec.params_query path.now rest) asked.new) ≡ behind (items_in before) (read (A.meanings answers.now) (spec.params_query path.now (param.now ∷ rest)) asked.old)) }
{
    let one = read_param(alloc, answers, asked, path, param)?;
    let params = append_found(before, one)?;
    Ok(params)
}

/// The parameters with those behind the first.
#[tactic(auto, using(crate::proofs::PartLemmas::behind_end))]
fn with_more<A: Answers>(
    alloc: Global,
    answers: &A,
    asked: &mut AskedKeys,
    path: &str,
    before: Option<Vec<Parameter>>,
    more: &[(Leaf, Param)],
) -> Result<Option<Vec<Parameter>>, NoMemory>
    ensures { IfOk result (λ got. (items_in got, asked.new) ≡ behind (items_in before) (read (A.meanings answers.now) (spec.params_query path.now (map (λ p. p.1) more.now)) asked.old)) }
{
    let mut params = before;
    for part in more {
        params = with_param(alloc, answers, asked, path, params, &part.1)?;
    }
    Ok(params)
}

/// All parameters, where each has a type. Those behind one without type are read, too.
#[tactic(auto, using(crate::proofs::PartLemmas::behind_nothing))]
pub fn read_params<A: Answers>(
    alloc: Global,
    answers: &A,
    asked: &mut AskedKeys,
    path: &str,
    params: &Option<(Param, Items<(Leaf, Param)>)>,
) -> Result<Option<Vec<Parameter>>, NoMemory>
    ensures { IfOk result (λ got. (items_in got, asked.new) ≡ read (A.meanings answers.now) (spec.params_query path.now (spec.params_in params.now)) asked.old) }
{
    match params {
        None => Ok(Some(Vec::new(alloc))),
        Some((first, more)) => {
            let none = Some(Vec::new(alloc));
            let found = with_param(alloc, answers, asked, path, none, first)?;
            let all = with_more(alloc, answers, asked, path, found, more.as_slice())?;
            Ok(all)
        }
    }
}
