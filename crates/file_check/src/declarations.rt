//! Globals, functions and aliases.

ghost use Rattle.std.specs.Prelude.{◌≡◌, [], Some, IfOk, OnOk};
ghost use Rattle.body_check.specs.Declarations as spec;
ghost use Rattle.file_check.specs.Runs.{run, behind_standing};

use crate::functions::check_function;
use crate::keys::{name_of, top_key};
use crate::own_types::check_own_type;
use crate::scopes::outside;
use crate::sites::SiteIndex;
use crate::standing::check_standing;
use crate::values::{check_value, global_units};
use dep_key::{Key, Name, NoMemory};
use expr_check::Log;
use sqlite_items::Items;
use std::alloc::Global;
use swift_ast::{Access, Alias, Func, Leaf};
use type_rules::Answers;
use typed_code::Unit;

/// Says how a name stands with the others that is declared outside structs and extensions.
pub fn check_top_standing<A: Answers>(
    alloc: Global,
    answers: &A,
    log: &mut Log,
    site: &SiteIndex<'_>,
    access: &Option<Access>,
    key: &Key,
    name: &Leaf,
) -> Result<(), NoMemory>
    ensures { OnOk result (log.new ≡ behind_standing (A.meanings answers.now) site.now (spec.declared [] access.now name.now) key.now name.now log.old) }
{
    let context = Name::new();
    check_standing(alloc, answers, log, site, &context, access, key, name)?;
    Ok(())
}

/// A global.
pub fn check_global<A: Answers>(
    alloc: Global,
    answers: &A,
    log: &mut Log,
    site: &SiteIndex<'_>,
    access: &Option<Access>,
    tree: &swift_ast::Global,
) -> Result<Items<Unit>, NoMemory>
    ensures { IfOk result (λ units. (Some units, log.new) ≡ run (A.meanings answers.now) (spec.global_check site.now access.now tree.now) log.old) }
{
    let key = top_key(alloc, site, access, &tree.name)?;
    check_top_standing(alloc, answers, log, site, access, &key, &tree.name)?;
    let value = check_value(
        alloc,
        answers,
        log,
        site,
        &key,
        &tree.annotation,
        &tree.value,
    )?;
    let symbol = name_of(&key)?;
    let units = global_units(alloc, symbol, value)?;
    Ok(units)
}

/// A function outside structs and extensions.
pub fn check_func<A: Answers>(
    alloc: Global,
    answers: &A,
    log: &mut Log,
    site: &SiteIndex<'_>,
    access: &Option<Access>,
    tree: &Func,
) -> Result<Items<Unit>, NoMemory>
    ensures { IfOk result (λ units. (Some units, log.new) ≡ run (A.meanings answers.now) (spec.func_check site.now access.now tree.now) log.old) }
{
    let key = top_key(alloc, site, access, &tree.name)?;
    check_top_standing(alloc, answers, log, site, access, &key, &tree.name)?;
    let scope = outside(alloc, site)?;
    let symbol = name_of(&key)?;
    let units = check_function(alloc, answers, log, scope, symbol, tree)?;
    Ok(units)
}

/// An alias. Its type is looked up, and is no use of the file's implementation.
pub fn check_alias<A: Answers>(
    alloc: Global,
    answers: &A,
    log: &mut Log,
    site: &SiteIndex<'_>,
    access: &Option<Access>,
    tree: &Alias,
) -> Result<Items<Unit>, NoMemory>
    ensures { IfOk result (λ units. (Some units, log.new) ≡ run (A.meanings answers.now) (spec.alias_check site.now access.now tree.now) log.old) }
{
    let key = top_key(alloc, site, access, &tree.name)?;
    check_top_standing(alloc, answers, log, site, access, &key, &tree.name)?;
    check_own_type(alloc, answers, log, site.path(), &tree.type_name.name)?;
    Ok(Items::new(alloc))
}
