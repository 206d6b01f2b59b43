//! Functions, methods and computed properties.

ghost use Rattle.std.specs.Prelude.{◌≡◌, List, ◌∷◌, map, length, Some, IfOk, OnOk};
ghost use Rattle.checks.specs.Logs.{made, saying};
ghost use Rattle.swift_ast.specs.declared.declarations.Param as tree;
ghost use Rattle.expr_check.specs.Messages.{orders};
ghost use Rattle.body_check.specs.Declarations as spec;

use crate::blocks::declare;
use crate::locals::not_declared;
use crate::reachability::falls_through;
use crate::say::say_missing_return;
use crate::statements::read_block;
use dep_key::{Name, NoMemory};
use expr_check::{Log, Place, Scope, copied_type, type_written};
use sqlite_items::Items;
use std::alloc::Global;
use swift_ast::{Block, Leaf, Param, TypeName};
use type_rules::{Answers, Ty};
use typed_code::{Function, Step, Unit};

/// Reads a parameter, which declares its name: with a type, or with none where that has an error.
#[tactic(auto, using(crate::proofs::FunctionLemmas::param_made))]
fn read_param<A: Answers>(
    alloc: Global,
    answers: &A,
    log: &mut Log,
    scope: &mut Scope,
    param: &Param,
) -> Result<(), NoMemory>
    ensures { OnOk result ((others : List tree.Param) → made orders (A.meanings answers.now) (spec.params_read (param.now ∷ others) scope.old) log.old ≡ made orders (A.meanings answers.now) (spec.params_read others scope.new) log.new) }
{
    let ty = type_written(alloc, answers, log, scope, &param.type_name.name)?;
    not_declared(alloc, answers, log, scope, &param.name)?;
    declare(alloc, scope, param.name.text.as_str(), ty, false)?;
    Ok(())
}

/// Reads the parameters behind the first one.
#[tactic(auto, using(crate::proofs::FunctionLemmas::params_turn, crate::proofs::FunctionLemmas::params_end))]
fn read_more_params<A: Answers>(
    alloc: Global,
    answers: &A,
    log: &mut Log,
    scope: &mut Scope,
    params: &[(Leaf, Param)],
) -> Result<(), NoMemory>
    ensures { OnOk result ((Some scope.new, log.new) ≡ made orders (A.meanings answers.now) (spec.params_read (map (λ p. p.1) params.now) scope.old) log.old) }
{
    for param in params {
        read_param(alloc, answers, log, scope, &param.1)?;
    }
    Ok(())
}

/// Reads the parameters of a function.
#[tactic(auto, using(crate::proofs::FunctionLemmas::params_made))]
fn read_params<A: Answers>(
    alloc: Global,
    answers: &A,
    log: &mut Log,
    scope: &mut Scope,
    params: &Option<(Param, Items<(Leaf, Param)>)>,
) -> Result<(), NoMemory>
    ensures { OnOk result ((Some scope.new, log.new) ≡ made orders (A.meanings answers.now) (spec.params_read (spec.params_of params.now) scope.old) log.old) }
{
    match params {
        None => Ok(()),
        Some((first, more)) => {
            read_param(alloc, answers, log, scope, first)?;
            read_more_params(alloc, answers, log, scope, more.as_slice())?;
            Ok(())
        }
    }
}

/// How many parameters a function has. Too many for a number are answered as want of memory.
#[tactic(auto, using(crate::proofs::FunctionLemmas::count_of))]
fn params_count(params: &Option<(Param, Items<(Leaf, Param)>)>) -> Result<u32, NoMemory>
    ensures { IfOk result (λ count. count ≡ length (spec.params_of params.now)) }
{
    match params {
        None => Ok(0),
        Some((_, more)) => {
            let others = more.len();
            if others >= u32::MAX as usize {
                return Err(NoMemory);
            }
            Ok(others as u32 + 1)
        }
    }
}

/// The type of a function's result, `Void` where none is written.
pub fn result_type<A: Answers>(
    alloc: Global,
    answers: &A,
    log: &mut Log,
    scope: &Scope,
    written: &Option<(Leaf, TypeName)>,
) -> Result<Option<Ty>, NoMemory>
    ensures { IfOk result (λ got. (got, log.new) ≡ made orders (A.meanings answers.now) (spec.result_type scope.now written.now) log.old) }
{
    match written {
        None => Ok(Some(Ty::Void)),
        Some((_, t)) => {
            let ty = type_written(alloc, answers, log, scope, &t.name)?;
            Ok(ty)
        }
    }
}

/// Makes a scope that of a function's parameters.
fn open_function(alloc: Global, scope: &mut Scope, gives: &Option<Ty>) -> Result<(), NoMemory>
    ensures { OnOk result (scope.new ≡ spec.in_function scope.old gives.now) }
{
    let copy = copied_type(gives)?;
    let mut blocks = Items::new(alloc);
    blocks.push(Items::new(alloc))?;
    scope.result = copy;
    scope.blocks = blocks;
    Ok(())
}

/// The types of all locals, if each has one.
#[tactic(auto, using(crate::proofs::FunctionLemmas::types_turn, crate::proofs::FunctionLemmas::types_stop, crate::proofs::FunctionLemmas::types_end))]
fn all_there(alloc: Global, types: &[Option<Ty>]) -> Result<Option<Items<Ty>>, NoMemory>
    ensures { IfOk result (λ got. got ≡ spec.all_there types.now) }
{
    let mut all = Items::new(alloc);
    for ty in types {
        match ty {
            None => return Ok(None),
            Some(ty) => {
                let copy = ty.clone()?;
                all.push(copy)?;
            }
        }
    }
    Ok(Some(all))
}

/// A body that falls through ends with a return.
fn ended(falls: bool, code: Items<Step>) -> Result<Items<Step>, NoMemory>
    ensures { IfOk result (λ got. got ≡ spec.ended falls code) }
{
    let mut code = code;
    if falls {
        code.push(Step::Return(Ty::Void))?;
        Ok(code)
    } else {
        Ok(code)
    }
}

/// Says where a body falls through that has to return a value.
fn check_end(
    alloc: Global,
    log: &mut Log,
    falls: bool,
    gives: &Option<Ty>,
    name: &Leaf,
) -> Result<(), NoMemory>
    ensures { OnOk result (log.new ≡ saying orders log.old (spec.missing_return falls gives.now name.now)) }
{
    if falls {
        match gives {
            None => Ok(()),
            Some(Ty::Void) => Ok(()),
            Some(ty) => {
                say_missing_return(alloc, log, Place::of(name), ty)?;
                Ok(())
            }
        }
    } else {
        Ok(())
    }
}

/// The code of a function, if nothing of it has an error.
fn function_units(
    alloc: Global,
    symbol: Name,
    receiver: Option<Ty>,
    params: u32,
    falls: bool,
    types: Option<Items<Ty>>,
    gives: Option<Ty>,
    code: Option<Items<Step>>,
) -> Result<Items<Unit>, NoMemory>
    ensures { IfOk result (λ units. units ≡ spec.function_units symbol receiver params falls types gives code) }
{
    match types {
        None => Ok(Items::new(alloc)),
        Some(types) => match gives {
            None => Ok(Items::new(alloc)),
            Some(ty) => match code {
                None => Ok(Items::new(alloc)),
                Some(code) => {
                    let code = ended(falls, code)?;
                    let function = Function {
                        receiver,
                        params,
                        types,
                        result: ty,
                        code,
                    };
                    let mut units = Items::new(alloc);
                    units.push(Unit::Function(symbol, function))?;
                    Ok(units)
                }
            },
        },
    }
}

/// Reads a function that gives a type, or something whose type has an error, in the scope outside it.
#[tactic(auto, using(crate::proofs::FunctionLemmas::function_made))]
pub fn read_function<A: Answers>(
    alloc: Global,
    answers: &A,
    log: &mut Log,
    scope: &mut Scope,
    symbol: Name,
    name: &Leaf,
    params: &Option<(Param, Items<(Leaf, Param)>)>,
    body: &Block,
    gives: Option<Ty>,
) -> Result<Items<Unit>, NoMemory>
    ensures { IfOk result (λ units. (Some units, log.new) ≡ made orders (A.meanings answers.now) (spec.function_giving scope.old symbol name.now (spec.params_of params.now) body.now gives) log.old) }
{
    let receiver = copied_type(&scope.self_type)?;
    let count = params_count(params)?;
    open_function(alloc, scope, &gives)?;
    read_params(alloc, answers, log, scope, params)?;
    let code = read_block(alloc, answers, log, scope, body)?;
    let falls = falls_through(body);
    check_end(alloc, log, falls, &gives, name)?;
    let types = all_there(alloc, scope.types.as_slice())?;
    let units = function_units(alloc, symbol, receiver, count, falls, types, gives, code)?;
    Ok(units)
}
