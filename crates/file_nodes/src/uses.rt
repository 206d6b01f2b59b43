//! The uses of a node.

ghost use Rattle.std.specs.Prelude.{◌≡◌, ◌++◌, [], List, IfOk, OnOk};
ghost use Rattle.queries.specs.Queries.{dependencies};
ghost use Rattle.checks.specs.Logs.{entered, set_of};
ghost use Rattle.dep_key.specs.declared.key.Key.{Key as Asked};
ghost use Rattle.dep_key.specs.KeyOrder.{key_order};
ghost use Rattle.decl_index.specs.Found.{shown_declaration};
ghost use Rattle.iface_print.specs.Nodes.{defined, potential, node_query};
ghost use Rattle.file_nodes.specs.Own.{own_at, from_own, from_all_own};

use crate::keys::listed;
use crate::own::own_declaration;
use decl_index::{DeclRef, Declared, Index};
use decl_meaning::{AskedKeys, definition_meaning};
use dep_key::{FileNo, Key, Keys, Kind, NoMemory};
use std::alloc::Global;
use type_rules::Answers;

/// Asks what a definition asks: its own key, and what it is read by.
fn ask_definition<A: Answers>(
    alloc: Global,
    answers: &A,
    asked: &mut AskedKeys,
    key: &Key,
    declared: Declared<'_>,
) -> Result<(), NoMemory>
    ensures { OnOk result (asked.new ≡ entered key_order asked.old (dependencies (A.meanings answers.now) (defined key.now (shown_declaration declared.entry)))) }
{
    asked.ask(key)?;
    definition_meaning(alloc, answers, asked, declared.path, key, declared.item)?;
    Ok(())
}

/// Asks whether the context of a potential member is a struct.
fn ask_context<A: Answers>(
    answers: &A,
    asked: &mut AskedKeys,
    key: &Key,
    declared: Declared<'_>,
) -> Result<(), NoMemory>
    ensures { OnOk result (asked.new ≡ entered key_order asked.old (dependencies (A.meanings answers.now) (potential key.now (shown_declaration declared.entry)))) }
{
    let context = Key::top_level(key.context.clone()?);
    asked.ask(&context)?;
    Ok(())
}

/// Asks what the node of a declaration under a key asks.
fn ask_node<A: Answers>(
    alloc: Global,
    answers: &A,
    asked: &mut AskedKeys,
    key: &Key,
    declared: Declared<'_>,
) -> Result<(), NoMemory>
    ensures { OnOk result (asked.new ≡ entered key_order asked.old (dependencies (A.meanings answers.now) (node_query key.now (shown_declaration declared.entry)))) }
{
    match key.kind {
        Kind::TopLevel | Kind::Nominal | Kind::Member => {
            ask_definition(alloc, answers, asked, key, declared)
        }
        _ => ask_context(answers, asked, key, declared),
    }
}

/// Asks what the node of the declaration of a reference asks, where it is one of the file of a number.
#[tactic(auto, using(crate::proofs::EnteredLemmas::entered_append))]
fn ask_own<A: Answers>(
    alloc: Global,
    answers: &A,
    asked: &mut AskedKeys,
    key: &Key,
    index: &Index,
    number: FileNo,
    at: DeclRef,
) -> Result<(), NoMemory>
    ensures { OnOk result ((more : List Asked) → entered key_order asked.new more ≡ entered key_order asked.old (from_own (λ d. dependencies (A.meanings answers.now) (node_query key.now d)) (own_at index.now number at) ++ more)) }
{
    match own_declaration(index, number, at) {
        None => Ok(()),
        Some(declared) => ask_node(alloc, answers, asked, key, declared),
    }
}

/// What the declarations of a file ask that have a key.
pub fn node_uses<A: Answers>(
    alloc: Global,
    answers: &A,
    key: &Key,
    index: &Index,
    number: FileNo,
    references: &[DeclRef],
) -> Result<Keys, NoMemory>
    ensures { IfOk result (λ uses. uses ≡ set_of key_order (from_all_own (λ d. dependencies (A.meanings answers.now) (node_query key.now d)) index.now number references.now)) }
{
    let mut asked = AskedKeys::new(alloc);
    for at in references {
        ask_own(alloc, answers, &mut asked, key, index, number, *at)?;
    }
    let uses = listed(alloc, asked.into_keys())?;
    Ok(uses)
}
