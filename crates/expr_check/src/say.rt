//! What is said of a name, a type or an operator at a place.

ghost use Rattle.std.specs.Prelude.{◌≡◌, [], ◌∷◌, string_bytes, IfOk, OnOk};
ghost use Rattle.checks.specs.Logs.{saying};
ghost use Rattle.expr_check.specs.Message as is;
ghost use Rattle.expr_check.specs.Messages.{about, line, orders};

use crate::{Line, Log, Place};
use dep_key::{NoMemory, Text};
use std::alloc::Global;
use type_rules::Ty;

/// Says what is wrong at a place.
fn say(log: &mut Log, at: Place, text: String) -> Result<(), NoMemory>
    ensures { OnOk result (log.new ≡ saying orders log.old (record { line = at.line; column = at.column; text = string_bytes text } ∷ [])) }
{
    let text = Text::from_vec(text.into_bytes());
    log.say(Line {
        line: at.line,
        column: at.column,
        text,
    })?;
    Ok(())
}

/// A name in a sentence.
fn about(alloc: Global, before: &str, name: &str, after: &str) -> Result<String, NoMemory>
    ensures { IfOk result (λ text. string_bytes text ≡ about before.now name.now after.now) }
{
    let text = format!(in alloc; "{before}{name}{after}")?;
    Ok(text)
}

/// Two names in a sentence.
fn about_two(
    alloc: Global,
    before: &str,
    first: &str,
    between: &str,
    second: &str,
    after: &str,
) -> Result<String, NoMemory>
    ensures { IfOk result (λ text. string_bytes text ≡ about before.now first.now (about between.now second.now after.now)) }
{
    let rest = about(alloc, between, second, after)?;
    let text = about(alloc, before, first, rest.as_str())?;
    Ok(text)
}

/// Three names in a sentence.
fn about_three(
    alloc: Global,
    before: &str,
    first: &str,
    between: &str,
    second: &str,
    and: &str,
    third: &str,
    after: &str,
) -> Result<String, NoMemory>
    ensures { IfOk result (λ text. string_bytes text ≡ about before.now first.now (about between.now second.now (about and.now third.now after.now))) }
{
    let rest = about_two(alloc, between, second, and, third, after)?;
    let text = about(alloc, before, first, rest.as_str())?;
    Ok(text)
}

/// Says that something is wrong about a name.
pub fn say_about(
    alloc: Global,
    log: &mut Log,
    at: Place,
    before: &str,
    name: &str,
    after: &str,
) -> Result<(), NoMemory>
    ensures { OnOk result (log.new ≡ saying orders log.old (record { line = at.line; column = at.column; text = about before.now name.now after.now } ∷ [])) }
{
    let text = about(alloc, before, name, after)?;
    say(log, at, text)?;
    Ok(())
}

/// Says that something is wrong between two names.
fn say_between(
    alloc: Global,
    log: &mut Log,
    at: Place,
    before: &str,
    first: &str,
    between: &str,
    second: &str,
    after: &str,
) -> Result<(), NoMemory>
    ensures { OnOk result (log.new ≡ saying orders log.old (record { line = at.line; column = at.column; text = about before.now first.now (about between.now second.now after.now) } ∷ [])) }
{
    let text = about_two(alloc, before, first, between, second, after)?;
    say(log, at, text)?;
    Ok(())
}

/// No value of this name is in scope.
#[tactic(auto, unfolding(crate::specs::Messages::text_of))]
pub fn say_not_found(alloc: Global, log: &mut Log, at: Place, name: &str) -> Result<(), NoMemory>
    ensures { OnOk result (log.new ≡ saying orders log.old (line at (is.NotFound name.now) ∷ [])) }
{
    say_about(alloc, log, at, "cannot find '", name, "' in scope")?;
    Ok(())
}

/// No type of this name is in scope.
#[tactic(auto, unfolding(crate::specs::Messages::text_of))]
pub fn say_type_not_found(
    alloc: Global,
    log: &mut Log,
    at: Place,
    name: &str,
) -> Result<(), NoMemory>
    ensures { OnOk result (log.new ≡ saying orders log.old (line at (is.TypeNotFound name.now) ∷ [])) }
{
    say_about(alloc, log, at, "cannot find type '", name, "' in scope")?;
    Ok(())
}

/// The name means neither a struct nor an alias.
#[tactic(auto, unfolding(crate::specs::Messages::text_of))]
pub fn say_not_a_type(alloc: Global, log: &mut Log, at: Place, name: &str) -> Result<(), NoMemory>
    ensures { OnOk result (log.new ≡ saying orders log.old (line at (is.NotAType name.now) ∷ [])) }
{
    say_about(alloc, log, at, "'", name, "' is not a type")?;
    Ok(())
}

/// The name means a type, or a function that isn't called.
#[tactic(auto, unfolding(crate::specs::Messages::text_of))]
pub fn say_not_a_value(alloc: Global, log: &mut Log, at: Place, name: &str) -> Result<(), NoMemory>
    ensures { OnOk result (log.new ≡ saying orders log.old (line at (is.NotAValue name.now) ∷ [])) }
{
    say_about(alloc, log, at, "'", name, "' is not a value")?;
    Ok(())
}

/// The name has several declarations.
#[tactic(auto, unfolding(crate::specs::Messages::text_of))]
pub fn say_ambiguous(alloc: Global, log: &mut Log, at: Place, name: &str) -> Result<(), NoMemory>
    ensures { OnOk result (log.new ≡ saying orders log.old (line at (is.Ambiguous name.now) ∷ [])) }
{
    say_about(alloc, log, at, "ambiguous use of '", name, "'")?;
    Ok(())
}

/// The declaration of the name has an error, or needs itself.
#[tactic(auto, unfolding(crate::specs::Messages::text_of))]
pub fn say_has_errors(alloc: Global, log: &mut Log, at: Place, name: &str) -> Result<(), NoMemory>
    ensures { OnOk result (log.new ≡ saying orders log.old (line at (is.HasErrors name.now) ∷ [])) }
{
    say_about(
        alloc,
        log,
        at,
        "'",
        name,
        "' has errors where it is declared",
    )?;
    Ok(())
}

/// The number or the labels of the arguments differ from what is called.
#[tactic(auto, unfolding(crate::specs::Messages::text_of))]
pub fn say_wrong_arguments(
    alloc: Global,
    log: &mut Log,
    at: Place,
    name: &str,
) -> Result<(), NoMemory>
    ensures { OnOk result (log.new ≡ saying orders log.old (line at (is.WrongArguments name.now) ∷ [])) }
{
    say_about(alloc, log, at, "wrong arguments in call to '", name, "'")?;
    Ok(())
}

/// A value of this type has no member of this name.
#[tactic(auto, unfolding(crate::specs::Messages::text_of))]
pub fn say_no_member(
    alloc: Global,
    log: &mut Log,
    at: Place,
    ty: &Ty,
    name: &str,
) -> Result<(), NoMemory>
    ensures { OnOk result (log.new ≡ saying orders log.old (line at (is.NoMember ty.now name.now) ∷ [])) }
{
    say_between(
        alloc,
        log,
        at,
        "value of type '",
        ty.shown(),
        "' has no member '",
        name,
        "'",
    )?;
    Ok(())
}

/// A value of the first type stands where one of the second is wanted.
#[tactic(auto, unfolding(crate::specs::Messages::text_of))]
pub fn say_no_conversion(
    alloc: Global,
    log: &mut Log,
    at: Place,
    ty: &Ty,
    wanted: &Ty,
) -> Result<(), NoMemory>
    ensures { OnOk result (log.new ≡ saying orders log.old (line at (is.NoConversion ty.now wanted.now) ∷ [])) }
{
    say_between(
        alloc,
        log,
        at,
        "cannot convert value of type '",
        ty.shown(),
        "' to '",
        wanted.shown(),
        "'",
    )?;
    Ok(())
}

/// The operator has no meaning before an operand of this type.
#[tactic(auto, unfolding(crate::specs::Messages::text_of))]
pub fn say_no_unary(
    alloc: Global,
    log: &mut Log,
    at: Place,
    operator: &str,
    ty: &Ty,
) -> Result<(), NoMemory>
    ensures { OnOk result (log.new ≡ saying orders log.old (line at (is.NoUnary operator.now ty.now) ∷ [])) }
{
    say_between(
        alloc,
        log,
        at,
        "unary operator '",
        operator,
        "' cannot be applied to '",
        ty.shown(),
        "'",
    )?;
    Ok(())
}

/// A value of this type is called.
#[tactic(auto, unfolding(crate::specs::Messages::text_of))]
pub fn say_not_callable(alloc: Global, log: &mut Log, at: Place, ty: &Ty) -> Result<(), NoMemory>
    ensures { OnOk result (log.new ≡ saying orders log.old (line at (is.NotCallable ty.now) ∷ [])) }
{
    say_about(
        alloc,
        log,
        at,
        "cannot call a value of type '",
        ty.shown(),
        "'",
    )?;
    Ok(())
}

/// The operator has no meaning between operands of these types.
#[tactic(auto, unfolding(crate::specs::Messages::text_of))]
pub fn say_no_binary(
    alloc: Global,
    log: &mut Log,
    at: Place,
    operator: &str,
    left: &Ty,
    right: &Ty,
) -> Result<(), NoMemory>
    ensures { OnOk result (log.new ≡ saying orders log.old (line at (is.NoBinary operator.now left.now right.now) ∷ [])) }
{
    let left = left.shown();
    let right = right.shown();
    let text = about_three(
        alloc,
        "binary operator '",
        operator,
        "' cannot be applied to '",
        left,
        "' and '",
        right,
        "'",
    )?;
    say(log, at, text)?;
    Ok(())
}
