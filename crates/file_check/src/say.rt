//! What is said of a declaration at its name.

ghost use Rattle.std.specs.Prelude.{◌≡◌, [], ◌∷◌, OnOk};
ghost use Rattle.checks.specs.Logs.{saying};
ghost use Rattle.expr_check.specs.Message as is;
ghost use Rattle.expr_check.specs.Messages.{line, orders, place_of};
ghost use Rattle.body_check.specs.Declarations.{one_line_if};

use dep_key::NoMemory;
use expr_check::{Log, Place, say_about};
use std::alloc::Global;
use swift_ast::Leaf;

/// The name is declared once more.
#[tactic(auto, unfolding(expr_check::specs::Messages::text_of))]
fn say_redeclared(alloc: Global, log: &mut Log, at: Place, name: &str) -> Result<(), NoMemory>
    ensures { OnOk result (log.new ≡ saying orders log.old (line at (is.Redeclared name.now) ∷ [])) }
{
    say_about(alloc, log, at, "invalid redeclaration of '", name, "'")?;
    Ok(())
}

/// What is declared needs itself.
#[tactic(auto, unfolding(expr_check::specs::Messages::text_of))]
fn say_circular(alloc: Global, log: &mut Log, at: Place, name: &str) -> Result<(), NoMemory>
    ensures { OnOk result (log.new ≡ saying orders log.old (line at (is.Circular name.now) ∷ [])) }
{
    say_about(alloc, log, at, "circular reference through '", name, "'")?;
    Ok(())
}

/// The module has no struct of the name.
#[tactic(auto, unfolding(expr_check::specs::Messages::text_of))]
pub fn say_not_a_struct(alloc: Global, log: &mut Log, at: Place, name: &str) -> Result<(), NoMemory>
    ensures { OnOk result (log.new ≡ saying orders log.old (line at (is.NotAStruct name.now) ∷ [])) }
{
    say_about(
        alloc,
        log,
        at,
        "extension of '",
        name,
        "', which is not a struct of this module",
    )?;
    Ok(())
}

/// The struct has too many words.
#[tactic(auto, unfolding(expr_check::specs::Messages::text_of))]
fn say_too_large(alloc: Global, log: &mut Log, at: Place, name: &str) -> Result<(), NoMemory>
    ensures { OnOk result (log.new ≡ saying orders log.old (line at (is.TooLarge name.now) ∷ [])) }
{
    say_about(
        alloc,
        log,
        at,
        "struct '",
        name,
        "' is larger than 1048576 words",
    )?;
    Ok(())
}

/// Says that a name is declared once more, where it is.
pub fn say_redeclared_if(
    alloc: Global,
    log: &mut Log,
    name: &Leaf,
    is_so: bool,
) -> Result<(), NoMemory>
    ensures { OnOk result (log.new ≡ saying orders log.old (one_line_if is_so (line (place_of name.now) (is.Redeclared name.now.text)))) }
{
    if is_so {
        say_redeclared(alloc, log, Place::of(name), name.text.as_str())?;
    }
    Ok(())
}

/// Says that what is declared needs itself, where it does.
pub fn say_circular_if(
    alloc: Global,
    log: &mut Log,
    name: &Leaf,
    is_so: bool,
) -> Result<(), NoMemory>
    ensures { OnOk result (log.new ≡ saying orders log.old (one_line_if is_so (line (place_of name.now) (is.Circular name.now.text)))) }
{
    if is_so {
        say_circular(alloc, log, Place::of(name), name.text.as_str())?;
    }
    Ok(())
}

/// Says that a struct has too many words, where it has.
pub fn say_too_large_if(
    alloc: Global,
    log: &mut Log,
    name: &Leaf,
    is_so: bool,
) -> Result<(), NoMemory>
    ensures { OnOk result (log.new ≡ saying orders log.old (one_line_if is_so (line (place_of name.now) (is.TooLarge name.now.text)))) }
{
    if is_so {
        say_too_large(alloc, log, Place::of(name), name.text.as_str())?;
    }
    Ok(())
}

/// The name has several declarations.
#[tactic(auto, unfolding(expr_check::specs::Messages::text_of))]
pub fn say_ambiguous(alloc: Global, log: &mut Log, at: Place, name: &str) -> Result<(), NoMemory>
    ensures { OnOk result (log.new ≡ saying orders log.old (line at (is.Ambiguous name.now) ∷ [])) }
{
    say_about(alloc, log, at, "ambiguous use of '", name, "'")?;
    Ok(())
}

/// The name means neither a struct nor an alias.
#[tactic(auto, unfolding(expr_check::specs::Messages::text_of))]
pub fn say_not_a_type(alloc: Global, log: &mut Log, at: Place, name: &str) -> Result<(), NoMemory>
    ensures { OnOk result (log.new ≡ saying orders log.old (line at (is.NotAType name.now) ∷ [])) }
{
    say_about(alloc, log, at, "'", name, "' is not a type")?;
    Ok(())
}

/// No type of this name is in scope.
#[tactic(auto, unfolding(expr_check::specs::Messages::text_of))]
pub fn say_type_not_found(
    alloc: Global,
    log: &mut Log,
    at: Place,
    name: &str,
) -> Result<(), NoMemory>
    ensures { OnOk result (log.new ≡ saying orders log.old (line at (is.TypeNotFound name.now) ∷ [])) }
{
    say_about(alloc, log, at, "cannot find type '", name, "' in scope")?;
    Ok(())
}
