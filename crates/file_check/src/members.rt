//! Members of structs.

ghost use Rattle.std.specs.Prelude.{◌≡◌, [], ◌∷◌, ◌++◌, map, Some, None, IfOk, OnOk};
ghost use Rattle.checks.specs.Checks.{sure, go_on, tried};
ghost use Rattle.checks.specs.OwnKeys.{used};
ghost use Rattle.expr_check.specs.Types.{type_written};
ghost use Rattle.expr_check.specs.Phrases.{expr_phrase};
ghost use Rattle.swift_ast.specs.declared.declarations.StructMember.TheVariants as part;
ghost use Rattle.type_rules.specs.declared.ty.Ty.TheVariants as ty;
ghost use Rattle.body_check.specs.Declarations as spec;
ghost use Rattle.file_check.specs.Members.{code_of, more, part_code, written_value};
ghost use Rattle.file_check.specs.Runs.{run, gathered};

use crate::functions::{check_computed, check_method};
use crate::keys::member_key;
use crate::scopes::outside;
use crate::sites::SiteIndex;
use crate::standing::check_standing;
use crate::values::{value_wanted, wanted_type};
use dep_key::{Key, Name, NoMemory};
use expr_check::{Log, Typed, type_written};
use sqlite_items::Items;
use std::alloc::Global;
use swift_ast::{Access, Computed, Expr, Func, Leaf, Stored, StoredValue, StructMember, TypeName};
use type_rules::{Answers, Ty};
use typed_code::{Initial, Unit};

/// What a member of a struct gives.
#[derive(Drop)]
pub enum Part {
    /// What the initializer does for a stored property, if it has no error.
    Stored(Option<Initial>),

    /// The code of a method or of a computed property.
    Code(Items<Unit>),
}

/// What the members of a struct give together.
#[derive(Drop)]
pub struct Parts {
    /// What the initializer does for each stored property.
    pub initials: Vec<Option<Initial>>,

    /// The code of methods and of computed properties.
    pub units: Items<Unit>,
}

fn handed_in(of: Option<Ty>) -> Option<Initial>
    ensures { result ≡ spec.handed_in of }
{
    match of {
        None => None,
        Some(of) => Some(Initial::Given(of)),
    }
}

fn own_code(value: Option<Typed>) -> Option<Initial>
    ensures { result ≡ spec.own_code value }
{
    match value {
        None => None,
        Some(value) => Some(Initial::Own(value.code)),
    }
}

/// A stored property without a value.
fn check_handed<A: Answers>(
    alloc: Global,
    answers: &A,
    log: &mut Log,
    site: &SiteIndex<'_>,
    t: &Leaf,
) -> Result<Option<Initial>, NoMemory>
    ensures { IfOk result (λ got. (Some got, log.new) ≡ run (A.meanings answers.now) (go_on (used (tried (type_written (spec.outside site.now) t.now))) (λ of. sure (spec.handed_in of))) log.old) }
{
    let scope = outside(alloc, site)?;
    let of = type_written(alloc, answers, log, &scope, t)?;
    Ok(handed_in(of))
}

/// An initial value whose type is written.
fn check_written<A: Answers>(
    alloc: Global,
    answers: &A,
    log: &mut Log,
    site: &SiteIndex<'_>,
    key: &Key,
    t: &TypeName,
    value: &Expr,
) -> Result<Option<Typed>, NoMemory>
    ensures { IfOk result (λ got. (Some got, log.new) ≡ run (A.meanings answers.now) (written_value site.now key.now t.now (expr_phrase value.now)) log.old) }
{
    let scope = outside(alloc, site)?;
    let wanted = wanted_type(alloc, answers, log, &scope, &t.name)?;
    let got = value_wanted(alloc, answers, log, site, key, wanted, value)?;
    Ok(got)
}

/// A stored property with a type and a value.
fn check_typed<A: Answers>(
    alloc: Global,
    answers: &A,
    log: &mut Log,
    site: &SiteIndex<'_>,
    key: &Key,
    t: &TypeName,
    value: &Expr,
) -> Result<Option<Initial>, NoMemory>
    ensures { IfOk result (λ got. (Some got, log.new) ≡ run (A.meanings answers.now) (go_on (written_value site.now key.now t.now (expr_phrase value.now)) (λ v. sure (spec.own_code v))) log.old) }
{
    let got = check_written(alloc, answers, log, site, key, t, value)?;
    Ok(own_code(got))
}

/// A stored property with a value alone.
fn check_inferred<A: Answers>(
    alloc: Global,
    answers: &A,
    log: &mut Log,
    site: &SiteIndex<'_>,
    key: &Key,
    value: &Expr,
) -> Result<Option<Initial>, NoMemory>
    ensures { IfOk result (λ got. (Some got, log.new) ≡ run (A.meanings answers.now) (go_on (spec.value_check site.now key.now None (expr_phrase value.now)) (λ v. sure (spec.own_code v))) log.old) }
{
    let got = value_wanted(alloc, answers, log, site, key, Some(None), value)?;
    Ok(own_code(got))
}

/// What the initializer does for a stored property.
fn check_stored<A: Answers>(
    alloc: Global,
    answers: &A,
    log: &mut Log,
    site: &SiteIndex<'_>,
    key: &Key,
    value: &StoredValue,
) -> Result<Option<Initial>, NoMemory>
    ensures { IfOk result (λ got. (Some got, log.new) ≡ run (A.meanings answers.now) (spec.stored_check site.now key.now value.now) log.old) }
{
    match value {
        StoredValue::Typed(_, t, value) => match value {
            None => {
                let initial = check_handed(alloc, answers, log, site, &t.name)?;
                Ok(initial)
            }
            Some(valued) => {
                let initial = check_typed(alloc, answers, log, site, key, t, &valued.1)?;
                Ok(initial)
            }
        },
        StoredValue::Inferred(_, value) => {
            let initial = check_inferred(alloc, answers, log, site, key, value)?;
            Ok(initial)
        }
    }
}

/// A stored property.
fn stored_part<A: Answers>(
    alloc: Global,
    answers: &A,
    log: &mut Log,
    site: &SiteIndex<'_>,
    context: &Name,
    access: &Option<Access>,
    tree: &Stored,
) -> Result<Part, NoMemory>
    ensures { IfOk result (λ got. (Some (part_code got), log.new) ≡ run (A.meanings answers.now) (spec.stored_member site.now context.now access.now tree.now) log.old) }
{
    let key = member_key(alloc, site, context, access, &tree.name)?;
    check_standing(alloc, answers, log, site, context, access, &key, &tree.name)?;
    let initial = check_stored(alloc, answers, log, site, &key, &tree.value)?;
    Ok(Part::Stored(initial))
}

/// The type of `self` in the struct of a context.
pub fn self_type(context: &Name) -> Result<Ty, NoMemory>
    ensures { IfOk result (λ of. of ≡ ty.Struct context.now) }
{
    let name = context.clone()?;
    Ok(Ty::Struct(name))
}

/// A computed property of a struct.
fn computed_part<A: Answers>(
    alloc: Global,
    answers: &A,
    log: &mut Log,
    site: &SiteIndex<'_>,
    context: &Name,
    access: &Option<Access>,
    tree: &Computed,
) -> Result<Part, NoMemory>
    ensures { IfOk result (λ got. (Some (part_code got), log.new) ≡ run (A.meanings answers.now) (go_on (spec.computed_check site.now context.now (Some (ty.Struct context.now)) access.now tree.now) (λ units. sure (spec.units_alone units))) log.old) }
{
    let of = self_type(context)?;
    let units = check_computed(alloc, answers, log, site, context, Some(of), access, tree)?;
    Ok(Part::Code(units))
}

/// A method of a struct.
fn method_part<A: Answers>(
    alloc: Global,
    answers: &A,
    log: &mut Log,
    site: &SiteIndex<'_>,
    context: &Name,
    access: &Option<Access>,
    tree: &Func,
) -> Result<Part, NoMemory>
    ensures { IfOk result (λ got. (Some (part_code got), log.new) ≡ run (A.meanings answers.now) (go_on (spec.method_check site.now context.now (Some (ty.Struct context.now)) access.now tree.now) (λ units. sure (spec.units_alone units))) log.old) }
{
    let of = self_type(context)?;
    let units = check_method(alloc, answers, log, site, context, Some(of), access, tree)?;
    Ok(Part::Code(units))
}

/// A member of a struct.
fn check_member<A: Answers>(
    alloc: Global,
    answers: &A,
    log: &mut Log,
    site: &SiteIndex<'_>,
    context: &Name,
    member: &(Option<Access>, StructMember),
) -> Result<Part, NoMemory>
    ensures { IfOk result (λ got. (Some (part_code got), log.new) ≡ run (A.meanings answers.now) (spec.struct_member_check site.now context.now member.now) log.old) }
{
    let access = &member.0;
    match &member.1 {
        StructMember::Stored(tree) => {
            let part = stored_part(alloc, answers, log, site, context, access, tree)?;
            Ok(part)
        }
        StructMember::Computed(tree) => {
            let part = computed_part(alloc, answers, log, site, context, access, tree)?;
            Ok(part)
        }
        StructMember::Func(tree) => {
            let part = method_part(alloc, answers, log, site, context, access, tree)?;
            Ok(part)
        }
    }
}

/// Adds what a member gives.
#[tactic(auto, using(crate::proofs::MemberLemmas::nothing_more))]
fn add_part(
    initials: &mut Vec<Option<Initial>>,
    units: &mut Items<Unit>,
    part: Part,
) -> Result<(), NoMemory>
    ensures { OnOk result (code_of initials.new.items units.new ≡ more (code_of initials.old.items units.old) (part_code part)) }
{
    match part {
        Part::Stored(initial) => {
            initials.push(initial)?;
            Ok(())
        }
        Part::Code(code) => {
            units.append(code)?;
            Ok(())
        }
    }
}

/// The members of a struct.
pub fn check_members<A: Answers>(
    alloc: Global,
    answers: &A,
    log: &mut Log,
    site: &SiteIndex<'_>,
    context: &Name,
    members: &[(Option<Access>, StructMember)],
) -> Result<Parts, NoMemory>
    ensures { IfOk result (λ got. (Some (code_of got.initials.items got.units), log.new) ≡ gathered more (A.meanings answers.now) (Some (code_of [] [])) (map (spec.struct_member_check site.now context.now) members.now) log.old) }
{
    let mut initials = Vec::new(alloc);
    let mut units = Items::new(alloc);
    for member in members {
        let part = check_member(alloc, answers, log, site, context, member)?;
        add_part(&mut initials, &mut units, part)?;
    }
    Ok(Parts { initials, units })
}
