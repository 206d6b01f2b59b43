//! Calls.

ghost use Rattle.std.specs.Prelude.{◌≡◌, [], ◌∷◌, ◌++◌, flat_map, map, IfOk};
ghost use Rattle.checks.specs.Checks.{all, appended, go_on, on_value, paired, sure};
ghost use Rattle.checks.specs.Logs.{made};
ghost use Rattle.expr_check.specs.Messages.{orders, place_of};
ghost use Rattle.expr_check.specs.Expressions as spec;
ghost use Rattle.expr_check.specs.Types.{valued, wrong_name};
ghost use Rattle.expr_check.specs.Message as is;
ghost use Rattle.expr_tree.specs.Callees.{arguments_view, argument_view, called_view, callee_view, given_view, givens_view, lone, print_lone, values_view};

use crate::callee::Callee;
use crate::given::Given;
use dep_key::{Name, NoMemory};
use expr_check::{
    Log, Place, Scope, Typed, converted, say_no_conversion, say_not_callable, say_wrong_arguments,
    valued,
};
use sqlite_items::Items;
use std::alloc::Global;
use swift_ast::Leaf;
use type_rules::{Answers, Parameter, Ty};
use typed_code::Step;

/// Whether there is an argument for each parameter, each with its label.
fn same_labels(params: &[Parameter], givens: &[Given]) -> bool
    ensures { result ≡ spec.same_labels params.now (givens_view givens.now) }
{
    let mut rest = params;
    for given in givens {
        match rest {
            [] => return false,
            [param, more @ ..] => {
                if param.label.as_str() != given.label.as_str() {
                    return false;
                }
                rest = more;
            }
        }
    }
    match rest {
        [] => true,
        _ => false,
    }
}

/// One value more, if all so far were there and it is.
fn appended(
    values: Option<Vec<Typed>>,
    value: Option<Typed>,
) -> Result<Option<Vec<Typed>>, NoMemory>
    ensures { IfOk result (λ made. values_view made ≡ appended (values_view values) value) }
{
    match values {
        None => Ok(None),
        Some(mut values) => match value {
            None => Ok(None),
            Some(value) => {
                values.push(value)?;
                Ok(Some(values))
            }
        },
    }
}

/// Each argument where its parameter is wanted: the values of all, if each is of the type of its parameter.
#[tactic(auto, using(crate::proofs::Lists::fits_end))]
fn fitted<A: Answers>(
    alloc: Global,
    answers: &A,
    log: &mut Log,
    params: &[Parameter],
    givens: Vec<Given>,
) -> Result<Option<Vec<Typed>>, NoMemory>
    ensures { IfOk result (λ got. (values_view got, log.new) ≡ made orders (A.meanings answers.now) (all (spec.fitted params.now (givens_view givens.items))) log.old) }
{
    let mut rest = params;
    let mut values = Some(Vec::new(alloc));
    for given in givens {
        match rest {
            [] => return Ok(values),
            [param, more @ ..] => {
                let value = converted(alloc, answers, log, given.first, &param.ty, given.value)?;
                values = appended(values, value)?;
                rest = more;
            }
        }
    }
    Ok(values)
}

/// The receiver, if there is one, and the arguments behind it.
fn received(
    alloc: Global,
    receiver: Option<Typed>,
    values: Vec<Typed>,
) -> Result<Vec<Typed>, NoMemory>
    ensures { IfOk result (λ all. all.items ≡ spec.received receiver ++ values.items) }
{
    match receiver {
        None => Ok(values),
        Some(receiver) => {
            let mut values = values;
            let mut all = Vec::new(alloc);
            all.push(receiver)?;
            all.append(&mut values)?;
            Ok(all)
        }
    }
}

/// Values one by one: the steps of all, and the types.
#[tactic(auto, using(crate::proofs::Lists::joined_behind))]
fn listed(alloc: Global, values: Vec<Typed>) -> Result<(Items<Step>, Items<Ty>), NoMemory>
    ensures steps { IfOk result (λ both. both.0 ≡ flat_map (λ v. v.code) values.items) }
    ensures types { IfOk result (λ both. both.1 ≡ map (λ v. v.ty) values.items) }
{
    let mut steps = Items::new(alloc);
    let mut types = Items::new(alloc);
    for value in values {
        steps.append(value.code)?;
        types.push(value.ty)?;
    }
    Ok((steps, types))
}

/// Values one by one, and then the call that takes them.
fn call_code(
    alloc: Global,
    values: Vec<Typed>,
    symbol: Name,
    ty: &Ty,
) -> Result<Items<Step>, NoMemory>
    ensures { IfOk result (λ code. code ≡ spec.call_code values.items symbol ty.now) }
{
    let ty = ty.clone()?;
    let (mut code, types) = listed(alloc, values)?;
    code.push(Step::Call(symbol, types, ty))?;
    Ok(code)
}

/// A call that has its arguments.
fn called(
    alloc: Global,
    receiver: Option<Typed>,
    values: Vec<Typed>,
    symbol: Name,
    ty: Ty,
) -> Result<Typed, NoMemory>
    ensures { IfOk result (λ v. v ≡ spec.typed ty (spec.call_code (spec.received receiver ++ values.items) symbol ty)) }
{
    let values = received(alloc, receiver, values)?;
    let code = call_code(alloc, values, symbol, &ty)?;
    Ok(Typed { ty, code })
}

/// A call whose arguments have their labels.
#[tactic(auto, using(crate::proofs::CheckLaws::bind))]
fn taken<A: Answers>(
    alloc: Global,
    answers: &A,
    log: &mut Log,
    scope: &Scope,
    first: Place,
    receiver: Option<Typed>,
    symbol: Name,
    params: &[Parameter],
    gives: Ty,
    givens: Vec<Given>,
) -> Result<Option<Typed>, NoMemory>
    ensures { IfOk result (λ got. (got, log.new) ≡ made orders (A.meanings answers.now) (go_on (all (spec.fitted params.now (givens_view givens.items))) (λ values. go_on (valued scope.now first gives) (λ of. sure (spec.typed of (spec.call_code (spec.received receiver ++ values) symbol of))))) log.old) }
{
    match fitted(alloc, answers, log, params, givens)? {
        None => Ok(None),
        Some(values) => match valued(alloc, answers, log, scope, first, gives)? {
            None => Ok(None),
            Some(ty) => {
                let value = called(alloc, receiver, values, symbol, ty)?;
                Ok(Some(value))
            }
        },
    }
}

/// The only argument.
#[tactic(auto, using(crate::proofs::Lists::lone_alone, crate::proofs::Lists::lone_of_more))]
fn lone(givens: Vec<Given>) -> Option<Given>
    ensures { argument_view result ≡ lone (givens_view givens.items) }
{
    let mut givens = givens;
    match givens.pop() {
        None => None,
        Some(given) => { if givens.is_empty() { Some(given) } else { None } }
    }
}

/// Whether values of a type can be printed.
fn is_printed(ty: &Ty) -> bool
    ensures { result ≡ spec.is_printed ty.now }
{
    matches!(ty, Ty::Int | Ty::String | Ty::Bool)
}

/// The argument of `print`.
fn printed<A: Answers>(
    alloc: Global,
    answers: &A,
    log: &mut Log,
    given: Given,
) -> Result<Option<Typed>, NoMemory>
    ensures { IfOk result (λ got. (got, log.new) ≡ made orders (A.meanings answers.now) (spec.printed (given_view given)) log.old) }
{
    let Given { first, value, .. } = given;
    if is_printed(&value.ty) {
        let Typed { ty, mut code } = value;
        code.push(Step::Print(ty))?;
        Ok(Some(Typed { ty: Ty::Void, code }))
    } else {
        say_no_conversion(alloc, log, first, &value.ty, &Ty::String)?;
        Ok(None)
    }
}

/// Says that the arguments of a call are wrong.
fn wrong_arguments<A: Answers>(
    alloc: Global,
    answers: &A,
    log: &mut Log,
    t: &Leaf,
) -> Result<Option<Typed>, NoMemory>
    ensures { IfOk result (λ got. (got, log.new) ≡ made orders (A.meanings answers.now) (wrong_name t.now (λ name. is.WrongArguments name)) log.old) }
{
    say_wrong_arguments(alloc, log, Place::of(t), t.text.as_str())?;
    Ok(None)
}

/// `print`, which takes one argument without label.
#[tactic(auto, using(crate::proofs::Lists::prints_alone))]
fn print_call<A: Answers>(
    alloc: Global,
    answers: &A,
    log: &mut Log,
    t: &Leaf,
    givens: Vec<Given>,
) -> Result<Option<Typed>, NoMemory>
    ensures { IfOk result (λ got. (got, log.new) ≡ made orders (A.meanings answers.now) (spec.print_call t.now (givens_view givens.items)) log.old) }
{
    let given = lone(givens);
    let value = print_lone(alloc, answers, log, t, given)?;
    Ok(value)
}

/// `print` of the only argument, if there is one.
fn print_lone<A: Answers>(
    alloc: Global,
    answers: &A,
    log: &mut Log,
    t: &Leaf,
    given: Option<Given>,
) -> Result<Option<Typed>, NoMemory>
    ensures { IfOk result (λ got. (got, log.new) ≡ made orders (A.meanings answers.now) (print_lone t.now (argument_view given)) log.old) }
{
    match given {
        None => {
            let none = wrong_arguments(alloc, answers, log, t)?;
            Ok(none)
        }
        Some(given) => {
            if given.label.as_str() == "_" {
                let value = printed(alloc, answers, log, given)?;
                Ok(value)
            } else {
                let none = wrong_arguments(alloc, answers, log, t)?;
                Ok(none)
            }
        }
    }
}

/// A call, in an expression that begins at a place. `name` is the last name of what is called.
pub fn call<A: Answers>(
    alloc: Global,
    answers: &A,
    log: &mut Log,
    scope: &Scope,
    first: Place,
    name: &Leaf,
    callee: Callee,
    givens: Vec<Given>,
) -> Result<Option<Typed>, NoMemory>
    ensures { IfOk result (λ got. (got, log.new) ≡ made orders (A.meanings answers.now) (spec.call scope.now first name.now (callee_view callee, givens_view givens.items)) log.old) }
{
    match callee {
        Callee::IsValue(ty) => {
            say_not_callable(alloc, log, first, &ty)?;
            Ok(None)
        }
        Callee::Prints => {
            let value = print_call(alloc, answers, log, name, givens)?;
            Ok(value)
        }
        Callee::Takes(receiver, symbol, params, gives) => {
            if same_labels(params.as_slice(), givens.as_slice()) {
                let value = taken(
                    alloc,
                    answers,
                    log,
                    scope,
                    first,
                    receiver,
                    symbol,
                    params.as_slice(),
                    gives,
                    givens,
                )?;
                Ok(value)
            } else {
                let none = wrong_arguments(alloc, answers, log, name)?;
                Ok(none)
            }
        }
    }
}

/// A call, where what is called and all arguments have no error.
pub fn call_given<A: Answers>(
    alloc: Global,
    answers: &A,
    log: &mut Log,
    scope: &Scope,
    first: &Leaf,
    name: &Leaf,
    callee: Option<Callee>,
    givens: Option<Vec<Given>>,
) -> Result<Option<Typed>, NoMemory>
    ensures { IfOk result (λ got. (got, log.new) ≡ made orders (A.meanings answers.now) (on_value (paired (called_view callee) (arguments_view givens)) (spec.call scope.now (place_of first.now) name.now)) log.old) }
{
    match callee {
        None => Ok(None),
        Some(callee) => match givens {
            None => Ok(None),
            Some(givens) => {
                let at = Place::of(first);
                let value = call(alloc, answers, log, scope, at, name, callee, givens)?;
                Ok(value)
            }
        },
    }
}
