//! What is said of statements and declarations.

ghost use Rattle.std.specs.Prelude.{◌≡◌, [], ◌∷◌, OnOk};
ghost use Rattle.checks.specs.Logs.{saying};
ghost use Rattle.expr_check.specs.Message as is;
ghost use Rattle.expr_check.specs.Messages.{line, orders};

use dep_key::NoMemory;
use expr_check::{Log, Place, say_about};
use std::alloc::Global;
use type_rules::Ty;

/// The name is declared once more in its block, in its file or in its module.
#[tactic(auto, unfolding(expr_check::specs::Messages::text_of))]
pub fn say_redeclared(alloc: Global, log: &mut Log, at: Place, name: &str) -> Result<(), NoMemory>
    ensures { OnOk result (log.new ≡ saying orders log.old (line at (is.Redeclared name.now) ∷ [])) }
{
    say_about(alloc, log, at, "invalid redeclaration of '", name, "'")?;
    Ok(())
}

/// The name can't be assigned to.
#[tactic(auto, unfolding(expr_check::specs::Messages::text_of))]
pub fn say_not_assignable(
    alloc: Global,
    log: &mut Log,
    at: Place,
    name: &str,
) -> Result<(), NoMemory>
    ensures { OnOk result (log.new ≡ saying orders log.old (line at (is.NotAssignable name.now) ∷ [])) }
{
    say_about(alloc, log, at, "cannot assign to '", name, "'")?;
    Ok(())
}

/// A value of this type is to be returned.
#[tactic(auto, unfolding(expr_check::specs::Messages::text_of))]
pub fn say_return_needs_value(
    alloc: Global,
    log: &mut Log,
    at: Place,
    ty: &Ty,
) -> Result<(), NoMemory>
    ensures { OnOk result (log.new ≡ saying orders log.old (line at (is.ReturnNeedsValue ty.now) ∷ [])) }
{
    say_about(
        alloc,
        log,
        at,
        "'return' needs a value of type '",
        ty.shown(),
        "'",
    )?;
    Ok(())
}

/// The body of a function falls through that returns values of this type.
#[tactic(auto, unfolding(expr_check::specs::Messages::text_of))]
pub fn say_missing_return(alloc: Global, log: &mut Log, at: Place, ty: &Ty) -> Result<(), NoMemory>
    ensures { OnOk result (log.new ≡ saying orders log.old (line at (is.MissingReturn ty.now) ∷ [])) }
{
    say_about(
        alloc,
        log,
        at,
        "missing return in a function that returns '",
        ty.shown(),
        "'",
    )?;
    Ok(())
}
