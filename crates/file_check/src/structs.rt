//! Structs.

ghost use Rattle.std.specs.Prelude.{◌≡◌, Some, IfOk};
ghost use Rattle.body_check.specs.Declarations as spec;
ghost use Rattle.file_check.specs.Members.{code_of, struct_code, struct_fields, struct_inside};
ghost use Rattle.file_check.specs.Runs.{run};

use crate::declarations::check_top_standing;
use crate::keys::{nominal_key, top_key};
use crate::members::{Parts, check_members};
use crate::sites::SiteIndex;
use crate::sizes::check_size;
use crate::standing::say_circle;
use dep_key::{Name, NoMemory};
use expr_check::{Log, fetch};
use sqlite_items::Items;
use std::alloc::Global;
use swift_ast::{Access, Struct};
use type_rules::{Answers, Meaning};
use typed_code::{Initial, Unit};

/// What the initializer does, where it is known of each stored property.
fn all_there(
    alloc: Global,
    initials: Vec<Option<Initial>>,
) -> Result<Option<Items<Initial>>, NoMemory>
    ensures { IfOk result (λ got. got ≡ spec.all_there initials.items) }
{
    let mut there = Items::new(alloc);
    for initial in initials {
        match initial {
            None => return Ok(None),
            Some(initial) => there.push(initial)?,
        }
    }
    Ok(Some(there))
}

/// The initializer of a struct, if there is one.
fn initializer_units(
    alloc: Global,
    context: Name,
    initials: Option<Items<Initial>>,
) -> Result<Items<Unit>, NoMemory>
    ensures { IfOk result (λ units. units ≡ spec.initializer_units context initials) }
{
    let mut units = Items::new(alloc);
    match initials {
        None => Ok(units),
        Some(initials) => {
            units.push(Unit::Initializer(context, initials))?;
            Ok(units)
        }
    }
}

/// The initializer of a struct, and then the code of its members.
fn struct_units(alloc: Global, context: &Name, parts: Parts) -> Result<Items<Unit>, NoMemory>
    ensures { IfOk result (λ units. units ≡ struct_code context.now (code_of parts.initials.items parts.units)) }
{
    let Parts { initials, units } = parts;
    let there = all_there(alloc, initials)?;
    let mut made = initializer_units(alloc, context.clone()?, there)?;
    made.append(units)?;
    Ok(made)
}

/// A struct whose stored parts mean something, behind what is said of its name.
fn check_fields<A: Answers>(
    alloc: Global,
    answers: &A,
    log: &mut Log,
    site: &SiteIndex<'_>,
    context: &Name,
    tree: &Struct,
    fields: &Meaning,
) -> Result<Items<Unit>, NoMemory>
    ensures { IfOk result (λ units. (Some units, log.new) ≡ run (A.meanings answers.now) (struct_fields site.now context.now tree.now fields.now) log.old) }
{
    say_circle(alloc, log, &tree.name, fields)?;
    check_size(alloc, answers, log, site, context, tree, fields)?;
    let members = tree.members.as_slice();
    let parts = check_members(alloc, answers, log, site, context, members)?;
    let units = struct_units(alloc, context, parts)?;
    Ok(units)
}

/// A struct, behind what is said of its name. Its stored parts are asked for, since its initializer has its size.
fn check_inside<A: Answers>(
    alloc: Global,
    answers: &A,
    log: &mut Log,
    site: &SiteIndex<'_>,
    context: &Name,
    tree: &Struct,
) -> Result<Items<Unit>, NoMemory>
    ensures { IfOk result (λ units. (Some units, log.new) ≡ run (A.meanings answers.now) (struct_inside site.now context.now tree.now) log.old) }
{
    let key = nominal_key(context)?;
    let fields = fetch(answers, log, &key)?;
    let units = check_fields(alloc, answers, log, site, context, tree, fields)?;
    Ok(units)
}

/// A struct.
pub fn check_struct<A: Answers>(
    alloc: Global,
    answers: &A,
    log: &mut Log,
    site: &SiteIndex<'_>,
    access: &Option<Access>,
    tree: &Struct,
) -> Result<Items<Unit>, NoMemory>
    ensures { IfOk result (λ units. (Some units, log.new) ≡ run (A.meanings answers.now) (spec.struct_check site.now access.now tree.now) log.old) }
{
    let key = top_key(alloc, site, access, &tree.name)?;
    check_top_standing(alloc, answers, log, site, access, &key, &tree.name)?;
    let units = check_inside(alloc, answers, log, site, &key.name, tree)?;
    Ok(units)
}
