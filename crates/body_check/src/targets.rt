//! What is assigned to.

ghost use Rattle.std.specs.Prelude.{◌≡◌, IfOk};
ghost use Rattle.checks.specs.Logs.{made};
ghost use Rattle.expr_check.specs.Messages.{orders};
ghost use Rattle.expr_check.specs.Phrases.{expr_phrase};
ghost use Rattle.body_check.specs.Statements as spec;
ghost use Rattle.body_check.specs.Targets.{destination_of, destination_view, member_behind, members_behind, stored_at};

use crate::say::say_not_assignable;
use dep_key::{Key, Name, NoMemory};
use expr_check::{
    Found, Log, Named, Place, Scope, Typed, converted, member_named, name_of, name_value,
    say_not_a_value, self_value, valued,
};
use expr_tree::{check_expression, first_place};
use sqlite_items::Items;
use std::alloc::{AllocError, Global};
use swift_ast::{Expr, Leaf, Target};
use type_rules::{Answers, Meaning, Ty};
use typed_code::Step;

/// What a target begins with.
#[derive(Drop)]
pub enum Root {
    /// A parameter or a local, by its number.
    Local(u32),

    /// A global, by its symbol.
    Global(Name),
}

/// What is assigned to: its type, and where it begins with the members that it goes through.
#[derive(Drop)]
pub struct Destination {
    pub ty: Ty,
    pub root: Root,
    pub members: Items<(Name, Name)>,
}

/// Says where a name can't be assigned to.
fn can_assign<A: Answers>(
    alloc: Global,
    answers: &A,
    log: &mut Log,
    assignable: bool,
    t: &Leaf,
) -> Result<Option<Items<Step>>, NoMemory>
    ensures { IfOk result (λ got. (got, log.new) ≡ made orders (A.meanings answers.now) (spec.can_assign assignable t.now) log.old) }
{
    if assignable {
        Ok(Some(Items::new(alloc)))
    } else {
        say_not_assignable(alloc, log, Place::of(t), t.text.as_str())?;
        Ok(None)
    }
}

/// Whether a target may begin with a name.
fn is_assignable(named: &Named) -> bool
    ensures { result ≡ spec.is_assignable named.now }
{
    match named {
        Named::Local(local) => local.mutable,
        Named::Global(_, mutable, _) => *mutable,
        Named::OfSelf(_, _, _) => false,
    }
}

/// Where a value of a name is kept.
fn root_of(named: &Named) -> Result<Root, AllocError>
    ensures { IfOk result (λ root. stored_at root ≡ spec.storing named.now) }
{
    match named {
        Named::Local(local) => Ok(Root::Local(local.number)),
        Named::Global(key, _, _) => {
            let symbol = key.name.clone()?;
            Ok(Root::Global(symbol))
        }
        Named::OfSelf(key, _, _) => {
            let symbol = key.name.clone()?;
            Ok(Root::Global(symbol))
        }
    }
}

/// A root as a value. Of a member, `self` and the member itself have to be laid out, whatever is wrong with the other.
#[tactic(auto, using(expr_check::proofs::CheckLaws::bind, expr_check::proofs::CheckLaws::paired))]
fn root_value<A: Answers>(
    alloc: Global,
    answers: &A,
    log: &mut Log,
    scope: &Scope,
    t: &Leaf,
    named: Named,
) -> Result<Option<Typed>, NoMemory>
    ensures { IfOk result (λ got. (got, log.new) ≡ made orders (A.meanings answers.now) (spec.root_value scope.now t.now named) log.old) }
{
    match named {
        Named::Local(local) => {
            let value = name_value(alloc, answers, log, scope, t, Named::Local(local))?;
            Ok(value)
        }
        Named::Global(key, mutable, ty) => {
            let named = Named::Global(key, mutable, ty);
            let value = name_value(alloc, answers, log, scope, t, named)?;
            Ok(value)
        }
        Named::OfSelf(_, _, ty) => {
            let base = self_value(alloc, answers, log, scope, t)?;
            let member = valued(alloc, answers, log, scope, Place::of(t), ty)?;
            match base {
                None => Ok(None),
                Some(_) => match member {
                    None => Ok(None),
                    Some(ty) => Ok(Some(Typed {
                        ty,
                        code: Items::new(alloc),
                    })),
                },
            }
        }
    }
}

/// What is assigned to by a name alone.
#[tactic(auto, using(expr_check::proofs::CheckLaws::bind, expr_check::proofs::CheckLaws::paired))]
fn named_destination<A: Answers>(
    alloc: Global,
    answers: &A,
    log: &mut Log,
    scope: &Scope,
    t: &Leaf,
    named: Named,
) -> Result<Option<Destination>, NoMemory>
    ensures { IfOk result (λ got. (destination_view got, log.new) ≡ made orders (A.meanings answers.now) (spec.named_destination scope.now t.now named) log.old) }
{
    let root = root_of(&named)?;
    let assignable = is_assignable(&named);
    let value = root_value(alloc, answers, log, scope, t, named)?;
    let assigned = can_assign(alloc, answers, log, assignable, t)?;
    match value {
        None => Ok(None),
        Some(Typed { ty, .. }) => match assigned {
            None => Ok(None),
            Some(_) => Ok(Some(Destination {
                ty,
                root,
                members: Items::new(alloc),
            })),
        },
    }
}

/// A root.
#[tactic(auto, using(expr_check::proofs::CheckLaws::bind))]
fn root_destination<A: Answers>(
    alloc: Global,
    answers: &A,
    log: &mut Log,
    scope: &Scope,
    t: &Leaf,
) -> Result<Option<Destination>, NoMemory>
    ensures { IfOk result (λ got. (destination_view got, log.new) ≡ made orders (A.meanings answers.now) (spec.root_destination scope.now t.now) log.old) }
{
    match name_of(alloc, answers, log, scope, t)? {
        None => Ok(None),
        Some(named) => {
            let destination = named_destination(alloc, answers, log, scope, t, named)?;
            Ok(destination)
        }
    }
}

/// One member further.
fn through(destination: Destination, key: Key, ty: Ty) -> Result<Destination, NoMemory>
    ensures { IfOk result (λ got. destination_of got ≡ spec.through (destination_of destination) key ty) }
{
    let Destination {
        root,
        mut members,
        ..
    } = destination;
    members.push((key.context, key.name))?;
    Ok(Destination { ty, root, members })
}

/// A member of a target, by what it means.
#[tactic(auto, using(expr_check::proofs::CheckLaws::bind, expr_check::proofs::CheckLaws::paired))]
fn member_meant<A: Answers>(
    alloc: Global,
    answers: &A,
    log: &mut Log,
    scope: &Scope,
    root: &Leaf,
    m: &Leaf,
    destination: Destination,
    found: Found<'_>,
) -> Result<Option<Destination>, NoMemory>
    ensures { IfOk result (λ got. (destination_view got, log.new) ≡ made orders (A.meanings answers.now) (spec.member_meant scope.now root.now m.now (destination_of destination) (found.entry.key, found.entry.meaning.now)) log.old) }
{
    let Found { key, meaning } = found;
    match meaning {
        Meaning::Value { mutable, ty } => {
            let further = through(destination, key, ty.clone()?)?;
            let value = valued(alloc, answers, log, scope, Place::of(root), ty.clone()?)?;
            let assigned = can_assign(alloc, answers, log, *mutable, m)?;
            match value {
                None => Ok(None),
                Some(_) => match assigned {
                    None => Ok(None),
                    Some(_) => Ok(Some(further)),
                },
            }
        }
        _ => {
            say_not_a_value(alloc, log, Place::of(m), m.text.as_str())?;
            Ok(None)
        }
    }
}

/// A member of what is assigned to, if that is there.
#[tactic(auto, using(expr_check::proofs::CheckLaws::bind))]
fn member_destination<A: Answers>(
    alloc: Global,
    answers: &A,
    log: &mut Log,
    scope: &Scope,
    root: &Leaf,
    m: &Leaf,
    destination: Option<Destination>,
) -> Result<Option<Destination>, NoMemory>
    ensures { IfOk result (λ got. (destination_view got, log.new) ≡ made orders (A.meanings answers.now) (member_behind scope.now root.now m.now (destination_view destination)) log.old) }
{
    match destination {
        None => Ok(None),
        Some(destination) => {
            match member_named(alloc, answers, log, scope, &destination.ty, m)? {
                None => Ok(None),
                Some(found) => {
                    let further = member_meant(
                        alloc,
                        answers,
                        log,
                        scope,
                        root,
                        m,
                        destination,
                        found,
                    )?;
                    Ok(further)
                }
            }
        }
    }
}

/// The members of a target, behind its root.
#[tactic(auto, using(crate::proofs::TargetLemmas::member_turn, crate::proofs::TargetLemmas::members_end))]
fn members_destination<A: Answers>(
    alloc: Global,
    answers: &A,
    log: &mut Log,
    scope: &Scope,
    root: &Leaf,
    first: Option<Destination>,
    members: &[(Leaf, Leaf)],
) -> Result<Option<Destination>, NoMemory>
    ensures { IfOk result (λ got. (destination_view got, log.new) ≡ made orders (A.meanings answers.now) (members_behind scope.now root.now (destination_view first) members.now) log.old) }
{
    let mut destination = first;
    for member in members {
        destination = member_destination(alloc, answers, log, scope, root, &member.1, destination)?;
    }
    Ok(destination)
}

/// What a target is.
#[tactic(auto, using(crate::proofs::TargetLemmas::target_made))]
fn target_destination<A: Answers>(
    alloc: Global,
    answers: &A,
    log: &mut Log,
    scope: &Scope,
    target: &Target,
) -> Result<Option<Destination>, NoMemory>
    ensures { IfOk result (λ got. (destination_view got, log.new) ≡ made orders (A.meanings answers.now) (spec.target_destination scope.now target.now) log.old) }
{
    let root = &target.root;
    let first = root_destination(alloc, answers, log, scope, root)?;
    let members = target.members.as_slice();
    let destination = members_destination(alloc, answers, log, scope, root, first, members)?;
    Ok(destination)
}

/// The step that assigns.
fn assigning(destination: Destination) -> Step
    ensures { result ≡ (destination_of destination).store (destination_of destination).members (destination_of destination).of }
{
    let Destination { ty, root, members } = destination;
    match root {
        Root::Local(number) => Step::SetLocal(number, members, ty),
        Root::Global(symbol) => Step::SetGlobal(symbol, members, ty),
    }
}

/// A value where it is assigned, in an expression that begins at a place.
#[tactic(auto, using(expr_check::proofs::CheckLaws::bind))]
fn assigned<A: Answers>(
    alloc: Global,
    answers: &A,
    log: &mut Log,
    first: Place,
    destination: Destination,
    value: Typed,
) -> Result<Option<Items<Step>>, NoMemory>
    ensures { IfOk result (λ got. (got, log.new) ≡ made orders (A.meanings answers.now) (spec.assigned first (destination_of destination, value)) log.old) }
{
    match converted(alloc, answers, log, first, &destination.ty, value)? {
        None => Ok(None),
        Some(Typed { mut code, .. }) => {
            code.push(assigning(destination))?;
            Ok(Some(code))
        }
    }
}

/// An assignment.
#[tactic(auto, using(expr_check::proofs::CheckLaws::bind, expr_check::proofs::CheckLaws::paired))]
pub fn assign<A: Answers>(
    alloc: Global,
    answers: &A,
    log: &mut Log,
    scope: &Scope,
    target: &Target,
    value: &Expr,
) -> Result<Option<Items<Step>>, NoMemory>
    ensures { IfOk result (λ got. (got, log.new) ≡ made orders (A.meanings answers.now) (spec.assign_check target.now (expr_phrase value.now) scope.now) log.old) }
{
    let destination = target_destination(alloc, answers, log, scope, target)?;
    let found = check_expression(alloc, answers, log, scope, value)?;
    match destination {
        None => Ok(None),
        Some(destination) => match found {
            None => Ok(None),
            Some(found) => {
                let first = first_place(value);
                let code = assigned(alloc, answers, log, first, destination, found)?;
                Ok(code)
            }
        },
    }
}
