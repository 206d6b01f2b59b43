//! Functions, methods and computed properties.

ghost use Rattle.std.specs.Prelude.{◌≡◌, [], Some, IfOk};
ghost use Rattle.checks.specs.Logs.{made};
ghost use Rattle.expr_check.specs.Messages.{orders};
ghost use Rattle.expr_check.specs.Types.{type_written};
ghost use Rattle.expr_check.specs.Expressions.{member_symbol};
ghost use Rattle.body_check.specs.Declarations as spec;
ghost use Rattle.file_check.specs.Runs.{run};

use crate::keys::member_key;
use crate::scopes::inside;
use crate::sites::SiteIndex;
use crate::standing::check_standing;
use body_check::{read_function, result_type};
use dep_key::{Key, Name, NoMemory};
use expr_check::{Log, Scope, type_written};
use sqlite_items::Items;
use std::alloc::Global;
use swift_ast::{Access, Computed, Func};
use type_rules::{Answers, Ty};
use typed_code::Unit;

/// A function in the scope outside it.
#[tactic(auto, using(crate::proofs::FunctionLemmas::function_made))]
pub fn check_function<A: Answers>(
    alloc: Global,
    answers: &A,
    log: &mut Log,
    scope: Scope,
    symbol: Name,
    tree: &Func,
) -> Result<Items<Unit>, NoMemory>
    ensures { IfOk result (λ units. (Some units, log.new) ≡ made orders (A.meanings answers.now) (spec.function_check scope symbol tree.now.name (spec.params_of tree.now.params) (spec.result_type scope tree.now.result_type) tree.now.body) log.old) }
{
    let mut scope = scope;
    let gives = result_type(alloc, answers, log, &scope, &tree.result_type)?;
    let units = read_function(
        alloc,
        answers,
        log,
        &mut scope,
        symbol,
        &tree.name,
        &tree.params,
        &tree.body,
        gives,
    )?;
    Ok(units)
}

/// A computed property in the scope outside it.
#[tactic(auto, using(crate::proofs::FunctionLemmas::function_made))]
fn check_property<A: Answers>(
    alloc: Global,
    answers: &A,
    log: &mut Log,
    scope: Scope,
    symbol: Name,
    tree: &Computed,
) -> Result<Items<Unit>, NoMemory>
    ensures { IfOk result (λ units. (Some units, log.new) ≡ made orders (A.meanings answers.now) (spec.function_check scope symbol tree.now.name [] (type_written scope tree.now.type_name.name) tree.now.body) log.old) }
{
    let mut scope = scope;
    let gives = type_written(alloc, answers, log, &scope, &tree.type_name.name)?;
    let units = read_function(
        alloc, answers, log, &mut scope, symbol, &tree.name, &None, &tree.body, gives,
    )?;
    Ok(units)
}

/// The symbol of a member.
fn symbol_of(alloc: Global, key: &Key) -> Result<Name, NoMemory>
    ensures { IfOk result (λ symbol. symbol ≡ member_symbol key.now) }
{
    let context = key.context.as_str();
    let name = key.name.as_str();
    let text = format!(in alloc; "{context}:{name}")?;
    let symbol = Name::from_string(text)?;
    Ok(symbol)
}

/// A method of a context.
pub fn check_method<A: Answers>(
    alloc: Global,
    answers: &A,
    log: &mut Log,
    site: &SiteIndex<'_>,
    context: &Name,
    of: Option<Ty>,
    access: &Option<Access>,
    tree: &Func,
) -> Result<Items<Unit>, NoMemory>
    ensures { IfOk result (λ units. (Some units, log.new) ≡ run (A.meanings answers.now) (spec.method_check site.now context.now of access.now tree.now) log.old) }
{
    let key = member_key(alloc, site, context, access, &tree.name)?;
    let symbol = symbol_of(alloc, &key)?;
    check_standing(alloc, answers, log, site, context, access, &key, &tree.name)?;
    let scope = inside(alloc, site, context, of)?;
    let units = check_function(alloc, answers, log, scope, symbol, tree)?;
    Ok(units)
}

/// A computed property of a context.
pub fn check_computed<A: Answers>(
    alloc: Global,
    answers: &A,
    log: &mut Log,
    site: &SiteIndex<'_>,
    context: &Name,
    of: Option<Ty>,
    access: &Option<Access>,
    tree: &Computed,
) -> Result<Items<Unit>, NoMemory>
    ensures { IfOk result (λ units. (Some units, log.new) ≡ run (A.meanings answers.now) (spec.computed_check site.now context.now of access.now tree.now) log.old) }
{
    let key = member_key(alloc, site, context, access, &tree.name)?;
    let symbol = symbol_of(alloc, &key)?;
    check_standing(alloc, answers, log, site, context, access, &key, &tree.name)?;
    let scope = inside(alloc, site, context, of)?;
    let units = check_property(alloc, answers, log, scope, symbol, tree)?;
    Ok(units)
}
