//! How a declared name stands with the others.

ghost use Rattle.std.specs.Prelude.{◌≡◌, ◌||◌, IfOk, OnOk};
ghost use Rattle.checks.specs.Logs.{saying};
ghost use Rattle.expr_check.specs.Messages.{orders};
ghost use Rattle.body_check.specs.Declarations as spec;
ghost use Rattle.file_check.specs.Runs.{behind_standing};

use crate::say::{say_circular_if, say_redeclared_if};
use crate::sites::SiteIndex;
use decl_index::is_private;
use dep_key::{Key, Name, NoMemory};
use expr_check::Log;
use std::alloc::Global;
use swift_ast::{Access, Leaf};
use type_rules::{Answers, Meaning};

fn is_ambiguous(meaning: &Meaning) -> bool
    ensures { result ≡ spec.is_ambiguous meaning.now }
{
    match meaning {
        Meaning::Ambiguous => true,
        _ => false,
    }
}

fn is_circular(meaning: &Meaning) -> bool
    ensures { result ≡ spec.is_circular meaning.now }
{
    match meaning {
        Meaning::Circular => true,
        _ => false,
    }
}

/// Says of a name that its declaration needs itself, where its key means so.
pub fn say_circle(
    alloc: Global,
    log: &mut Log,
    name: &Leaf,
    meaning: &Meaning,
) -> Result<(), NoMemory>
    ensures { OnOk result (log.new ≡ saying orders log.old (spec.circle name.now meaning.now)) }
{
    say_circular_if(alloc, log, name, is_circular(meaning))?;
    Ok(())
}

/// Whether a name is declared once more.
fn is_redeclared(
    alloc: Global,
    site: &SiteIndex<'_>,
    context: &Name,
    access: &Option<Access>,
    name: &Leaf,
    meaning: &Meaning,
) -> Result<bool, NoMemory>
    ensures { IfOk result (λ again. again ≡ spec.is_ambiguous meaning.now || spec.with_other_visibility site.now (spec.declared context.now access.now name.now)) }
{
    let text = Name::from_str(alloc, name.text.as_str())?;
    let other = site.has_other_visibility(context.clone()?, text, is_private(access));
    Ok(is_ambiguous(meaning) || other)
}

/// Says how a declared name stands with the others: it must not be declared again, and must not need itself.
pub fn check_standing<A: Answers>(
    alloc: Global,
    answers: &A,
    log: &mut Log,
    site: &SiteIndex<'_>,
    context: &Name,
    access: &Option<Access>,
    key: &Key,
    name: &Leaf,
) -> Result<(), NoMemory>
    ensures { OnOk result (log.new ≡ behind_standing (A.meanings answers.now) site.now (spec.declared context.now access.now name.now) key.now name.now log.old) }
{
    let meaning = answers.meaning(key);
    let again = is_redeclared(alloc, site, context, access, name, meaning)?;
    say_redeclared_if(alloc, log, name, again)?;
    say_circle(alloc, log, name, meaning)?;
    Ok(())
}
