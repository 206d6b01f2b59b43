//! Extensions.

ghost use Rattle.std.specs.Prelude.{◌≡◌, [], ◌∷◌, ◌++◌, map, Some, None, IfOk};
ghost use Rattle.checks.specs.Checks.{hushed};
ghost use Rattle.dep_key.specs.KeyBuilders.{key_name};
ghost use Rattle.decl_index.specs.Declarations.{is_among};
ghost use Rattle.body_check.specs.Declarations as spec;
ghost use Rattle.file_check.specs.Extensions.{extension_of_struct, extension_of_none, extension_in};
ghost use Rattle.file_check.specs.Runs.{run, gathered};

use crate::functions::{check_computed, check_method};
use crate::keys::top_key_of;
use crate::members::self_type;
use crate::say::say_not_a_struct;
use crate::sites::SiteIndex;
use dep_key::{Name, NoMemory, key_name};
use expr_check::{Log, Place, copied_type, fetch, laid_out};
use sqlite_items::Items;
use std::alloc::Global;
use swift_ast::{Access, Extension, ExtensionMember};
use type_rules::{Answers, Meaning, Ty};
use typed_code::Unit;

/// A member of an extension.
fn check_member<A: Answers>(
    alloc: Global,
    answers: &A,
    log: &mut Log,
    site: &SiteIndex<'_>,
    context: &Name,
    of: Option<Ty>,
    member: &(Option<Access>, ExtensionMember),
) -> Result<Items<Unit>, NoMemory>
    ensures { IfOk result (λ units. (Some units, log.new) ≡ run (A.meanings answers.now) (spec.extension_member_check site.now context.now of member.now) log.old) }
{
    let access = &member.0;
    match &member.1 {
        ExtensionMember::Computed(tree) => {
            let units = check_computed(alloc, answers, log, site, context, of, access, tree)?;
            Ok(units)
        }
        ExtensionMember::Func(tree) => {
            let units = check_method(alloc, answers, log, site, context, of, access, tree)?;
            Ok(units)
        }
    }
}

/// The members of an extension.
fn check_members<A: Answers>(
    alloc: Global,
    answers: &A,
    log: &mut Log,
    site: &SiteIndex<'_>,
    context: &Name,
    of: &Option<Ty>,
    members: &[(Option<Access>, ExtensionMember)],
) -> Result<Items<Unit>, NoMemory>
    ensures { IfOk result (λ units. (Some units, log.new) ≡ gathered (λ us vs. us ++ vs) (A.meanings answers.now) (Some []) (map (spec.extension_member_check site.now context.now of.now) members.now) log.old) }
{
    let mut units = Items::new(alloc);
    for member in members {
        let own = copied_type(of)?;
        let more = check_member(alloc, answers, log, site, context, own, member)?;
        units.append(more)?;
    }
    Ok(units)
}

/// The members of an extension, by its tree.
fn extension_members<A: Answers>(
    alloc: Global,
    answers: &A,
    log: &mut Log,
    site: &SiteIndex<'_>,
    context: &Name,
    of: &Option<Ty>,
    tree: &Extension,
) -> Result<Items<Unit>, NoMemory>
    ensures { IfOk result (λ units. (Some units, log.new) ≡ run (A.meanings answers.now) (spec.extension_members site.now context.now of.now tree.now) log.old) }
{
    let members = tree.members.as_slice();
    let units = check_members(alloc, answers, log, site, context, of, members)?;
    Ok(units)
}

/// The members of an extension of something that is no struct. Nothing is said of them.
fn hushed_members<A: Answers>(
    alloc: Global,
    answers: &A,
    log: &mut Log,
    site: &SiteIndex<'_>,
    context: &Name,
    tree: &Extension,
) -> Result<Items<Unit>, NoMemory>
    ensures { IfOk result (λ units. (Some units, log.new) ≡ run (A.meanings answers.now) (hushed (spec.extension_members site.now context.now None tree.now)) log.old) }
{
    let before = log.is_muted();
    log.mute(true);
    let units = extension_members(alloc, answers, log, site, context, &None, tree)?;
    log.mute(before);
    Ok(units)
}

/// An extension of a struct.
fn of_struct<A: Answers>(
    alloc: Global,
    answers: &A,
    log: &mut Log,
    site: &SiteIndex<'_>,
    context: &Name,
    tree: &Extension,
) -> Result<Items<Unit>, NoMemory>
    ensures { IfOk result (λ units. (Some units, log.new) ≡ run (A.meanings answers.now) (extension_of_struct site.now context.now tree.now) log.old) }
{
    let whole = self_type(context)?;
    laid_out(alloc, answers, log, Place::of(&tree.name), whole)?;
    let receiver = self_type(context)?;
    let own = Some(receiver);
    let units = extension_members(alloc, answers, log, site, context, &own, tree)?;
    Ok(units)
}

/// An extension of something that is no struct.
fn of_none<A: Answers>(
    alloc: Global,
    answers: &A,
    log: &mut Log,
    site: &SiteIndex<'_>,
    context: &Name,
    tree: &Extension,
) -> Result<Items<Unit>, NoMemory>
    ensures { IfOk result (λ units. (Some units, log.new) ≡ run (A.meanings answers.now) (extension_of_none site.now context.now tree.now) log.old) }
{
    let name = tree.name.text.as_str();
    say_not_a_struct(alloc, log, Place::of(&tree.name), name)?;
    let units = hushed_members(alloc, answers, log, site, context, tree)?;
    Ok(units)
}

/// An extension, by what its context means.
fn check_as<A: Answers>(
    alloc: Global,
    answers: &A,
    log: &mut Log,
    site: &SiteIndex<'_>,
    context: &Name,
    tree: &Extension,
    meaning: &Meaning,
) -> Result<Items<Unit>, NoMemory>
    ensures { IfOk result (λ units. (Some units, log.new) ≡ run (A.meanings answers.now) (spec.extension_as site.now context.now tree.now meaning.now) log.old) }
{
    match meaning {
        Meaning::Struct { .. } => {
            let units = of_struct(alloc, answers, log, site, context, tree)?;
            Ok(units)
        }
        _ => {
            let units = of_none(alloc, answers, log, site, context, tree)?;
            Ok(units)
        }
    }
}

/// An extension in its context.
fn check_in<A: Answers>(
    alloc: Global,
    answers: &A,
    log: &mut Log,
    site: &SiteIndex<'_>,
    context: &Name,
    tree: &Extension,
) -> Result<Items<Unit>, NoMemory>
    ensures { IfOk result (λ units. (Some units, log.new) ≡ run (A.meanings answers.now) (extension_in site.now context.now tree.now) log.old) }
{
    let key = top_key_of(context)?;
    let meaning = fetch(answers, log, &key)?;
    let units = check_as(alloc, answers, log, site, context, tree, meaning)?;
    Ok(units)
}

/// The context of an extension: the struct of its name that its file keeps to itself, where there is one, and else the module's.
fn context_of(alloc: Global, site: &SiteIndex<'_>, name: &str) -> Result<Name, NoMemory>
    ensures { IfOk result (λ context. context ≡ key_name site.now.path (is_among site.now.own_structs name.now) name.now) }
{
    let is_own = site.keeps_struct(alloc, name)?;
    let context = key_name(alloc, site.path(), is_own, name)?;
    Ok(context)
}

/// An extension.
pub fn check_extension<A: Answers>(
    alloc: Global,
    answers: &A,
    log: &mut Log,
    site: &SiteIndex<'_>,
    tree: &Extension,
) -> Result<Items<Unit>, NoMemory>
    ensures { IfOk result (λ units. (Some units, log.new) ≡ run (A.meanings answers.now) (spec.extension_check site.now tree.now) log.old) }
{
    let context = context_of(alloc, site, tree.name.text.as_str())?;
    let units = check_in(alloc, answers, log, site, &context, tree)?;
    Ok(units)
}
