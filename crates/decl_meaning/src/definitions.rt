//! What a declaration means under each of its keys.

ghost use Rattle.std.specs.Prelude.{◌≡◌, IfOk, OnOk};
ghost use Rattle.queries.specs.Queries.{value_with, dependencies};
ghost use Rattle.checks.specs.Logs.{entered};
ghost use Rattle.dep_key.specs.KeyOrder.{key_order};
ghost use Rattle.decl_index.specs.Declarations.{GlobalItem, FuncItem, AliasItem, StructItem, StoredItem, ComputedItem};
ghost use Rattle.decl_index.specs.Found.{shown_item};
ghost use Rattle.type_infer.specs.Readings as spec;
ghost use Rattle.decl_meaning.specs.Asking.{read};

use crate::AskedKeys;
use crate::asked::written_type;
use crate::fields::fields_meaning;
use crate::params::read_params;
use crate::stored::all_measured;
use crate::values::{
    alias_meaning, function_meaning, global_type, is_var, result_type, stored_type, value_meaning,
};
use decl_index::Item;
use dep_key::{Key, Kind, NoMemory};
use std::alloc::Global;
use swift_ast::{Alias, Computed, Func, Stored, Struct};
use type_rules::{Answers, Meaning};

#[tactic(auto, using(crate::proofs::ReadLemmas::read_bind))]
fn global_meaning<A: Answers>(
    alloc: Global,
    answers: &A,
    asked: &mut AskedKeys,
    path: &str,
    tree: &swift_ast::Global,
) -> Result<Meaning, NoMemory>
    ensures { IfOk result (λ got. (key : Key) → (got, asked.new) ≡ read (A.meanings answers.now) (spec.definition_query path.now key (GlobalItem tree.now)) asked.old) }
{
    let ty = global_type(alloc, answers, asked, path, &tree.annotation, &tree.value)?;
    Ok(value_meaning(is_var(&tree.specifier), ty))
}

#[tactic(auto, using(crate::proofs::ReadLemmas::read_bind))]
fn stored_meaning<A: Answers>(
    alloc: Global,
    answers: &A,
    asked: &mut AskedKeys,
    path: &str,
    tree: &Stored,
) -> Result<Meaning, NoMemory>
    ensures { IfOk result (λ got. (key : Key) → (got, asked.new) ≡ read (A.meanings answers.now) (spec.definition_query path.now key (StoredItem tree.now)) asked.old) }
{
    let ty = stored_type(alloc, answers, asked, path, &tree.value)?;
    Ok(value_meaning(is_var(&tree.specifier), ty))
}

#[tactic(auto, using(crate::proofs::ReadLemmas::read_bind))]
fn computed_meaning<A: Answers>(
    alloc: Global,
    answers: &A,
    asked: &mut AskedKeys,
    path: &str,
    tree: &Computed,
) -> Result<Meaning, NoMemory>
    ensures { IfOk result (λ got. (key : Key) → (got, asked.new) ≡ read (A.meanings answers.now) (spec.definition_query path.now key (ComputedItem tree.now)) asked.old) }
{
    let ty = written_type(alloc, answers, asked, path, &tree.type_name)?;
    Ok(value_meaning(false, ty))
}

#[tactic(auto, using(crate::proofs::ReadLemmas::read_bind))]
fn func_meaning<A: Answers>(
    alloc: Global,
    answers: &A,
    asked: &mut AskedKeys,
    path: &str,
    tree: &Func,
) -> Result<Meaning, NoMemory>
    ensures { IfOk result (λ got. (key : Key) → (got, asked.new) ≡ read (A.meanings answers.now) (spec.definition_query path.now key (FuncItem tree.now)) asked.old) }
{
    let params = read_params(alloc, answers, asked, path, &tree.params)?;
    let result = result_type(alloc, answers, asked, path, &tree.result_type)?;
    Ok(function_meaning(params, result))
}

#[tactic(auto, using(crate::proofs::ReadLemmas::read_bind))]
fn alias_of<A: Answers>(
    alloc: Global,
    answers: &A,
    asked: &mut AskedKeys,
    path: &str,
    tree: &Alias,
) -> Result<Meaning, NoMemory>
    ensures { IfOk result (λ got. (key : Key) → (got, asked.new) ≡ read (A.meanings answers.now) (spec.definition_query path.now key (AliasItem tree.now)) asked.old) }
{
    let ty = written_type(alloc, answers, asked, path, &tree.type_name)?;
    Ok(alias_meaning(ty))
}

/// What a key of a struct means: its nominal key its fields, its name the struct.
#[tactic(auto, using(crate::proofs::ReadLemmas::read_bind))]
fn struct_meaning<A: Answers>(
    alloc: Global,
    answers: &A,
    asked: &mut AskedKeys,
    path: &str,
    key: &Key,
    tree: &Struct,
) -> Result<Meaning, NoMemory>
    ensures { IfOk result (λ got. (got, asked.new) ≡ read (A.meanings answers.now) (spec.definition_query path.now key.now (StructItem tree.now)) asked.old) }
{
    match key.kind {
        Kind::Nominal => {
            let members = tree.members.as_slice();
            let found = all_measured(alloc, answers, asked, path, &key.context, members)?;
            let meaning = fields_meaning(alloc, found)?;
            Ok(meaning)
        }
        _ => {
            let context = key.name.clone()?;
            Ok(Meaning::Struct { context })
        }
    }
}

/// What a declaration means, with what it asks.
fn read_definition<A: Answers>(
    alloc: Global,
    answers: &A,
    asked: &mut AskedKeys,
    path: &str,
    key: &Key,
    item: Item<'_>,
) -> Result<Meaning, NoMemory>
    ensures { IfOk result (λ got. (got, asked.new) ≡ read (A.meanings answers.now) (spec.definition_query path.now key.now (shown_item item.entry)) asked.old) }
{
    match item {
        Item::Global(tree) => {
            let meaning = global_meaning(alloc, answers, asked, path, tree)?;
            Ok(meaning)
        }
        Item::Func(tree) => {
            let meaning = func_meaning(alloc, answers, asked, path, tree)?;
            Ok(meaning)
        }
        Item::Alias(tree) => {
            let meaning = alias_of(alloc, answers, asked, path, tree)?;
            Ok(meaning)
        }
        Item::Struct(tree) => {
            let meaning = struct_meaning(alloc, answers, asked, path, key, tree)?;
            Ok(meaning)
        }
        Item::Stored(tree) => {
            let meaning = stored_meaning(alloc, answers, asked, path, tree)?;
            Ok(meaning)
        }
        Item::Computed(tree) => {
            let meaning = computed_meaning(alloc, answers, asked, path, tree)?;
            Ok(meaning)
        }
        Item::Extension(_) => {
            let context = key.context.clone()?;
            Ok(Meaning::Struct { context })
        }
    }
}

/// What a key of a declaration means, with what it asks.
fn read_item<A: Answers>(
    alloc: Global,
    answers: &A,
    asked: &mut AskedKeys,
    path: &str,
    key: &Key,
    item: Item<'_>,
) -> Result<Meaning, NoMemory>
    ensures { IfOk result (λ got. (got, asked.new) ≡ read (A.meanings answers.now) (spec.item_query path.now key.now (shown_item item.entry)) asked.old) }
{
    match key.kind {
        Kind::TopLevel | Kind::Nominal | Kind::Member => {
            let meaning = read_definition(alloc, answers, asked, path, key, item)?;
            Ok(meaning)
        }
        _ => {
            let context = key.context.clone()?;
            Ok(Meaning::Struct { context })
        }
    }
}

/// What a declaration of the file of a path means by its name, or by the stored properties of a struct. The keys that it asks
/// are entered into `asked`.
///
/// An error says that memory was wanted and not there.
#[tactic(auto, using(crate::proofs::ReadLemmas::read_is))]
pub fn definition_meaning<A: Answers>(
    alloc: Global,
    answers: &A,
    asked: &mut AskedKeys,
    path: &str,
    key: &Key,
    item: Item<'_>,
) -> Result<Meaning, NoMemory>
    ensures meaning { IfOk result (λ m. m ≡ value_with (A.meanings answers.now) (spec.definition_query path.now key.now (shown_item item.entry))) }
    ensures asked { OnOk result (asked.new ≡ entered key_order asked.old (dependencies (A.meanings answers.now) (spec.definition_query path.now key.now (shown_item item.entry)))) }
{
    let meaning = read_definition(alloc, answers, asked, path, key, item)?;
    Ok(meaning)
}

/// What a key of a declaration of the file of a path means, where no other declaration has it. The keys that it asks are
/// entered into `asked`.
///
/// An error says that memory was wanted and not there.
#[tactic(auto, using(crate::proofs::ReadLemmas::read_is))]
pub fn item_meaning<A: Answers>(
    alloc: Global,
    answers: &A,
    asked: &mut AskedKeys,
    path: &str,
    key: &Key,
    item: Item<'_>,
) -> Result<Meaning, NoMemory>
    ensures meaning { IfOk result (λ m. m ≡ value_with (A.meanings answers.now) (spec.item_query path.now key.now (shown_item item.entry))) }
    ensures asked { OnOk result (asked.new ≡ entered key_order asked.old (dependencies (A.meanings answers.now) (spec.item_query path.now key.now (shown_item item.entry)))) }
{
    let meaning = read_item(alloc, answers, asked, path, key, item)?;
    Ok(meaning)
}
