//! The meanings of all keys of a module.

ghost use Rattle.std.specs.Prelude.{◌≡◌, ◌++◌, flat_map, IfOk, OnOk};
ghost use Rattle.std.specs.BTreeMap.{get};
ghost use Rattle.queries.specs.Queries.{IsBelow};
ghost use Rattle.query_evaluator.specs.Memos.{IsTrueMemo};
ghost use Rattle.dep_key.specs.KeyOrder.{key_order};
ghost use Rattle.type_infer.specs.Meanings as spec;
ghost use Rattle.decl_meaning.specs.Settled.{AreAnswered, IsSettled};

use crate::memo_answers::{Unanswered, meaning_so_far};
use crate::module_tasks::ModuleTasks;
use decl_index::{Index, declared_keys};
use dep_key::{Key, Keys, NoMemory};
use query_evaluator::{Memo, answer};
use std::alloc::Global;
use std::collections::BTreeMap;
use std::marker::Model;
use swift_ast::FileTree;
use type_rules::{Answers, Meaning};

/// Adds the keys of some declarations.
fn add_keys(keys: &mut Vec<Key>, declared: Vec<Keys>) -> Result<(), NoMemory>
    ensures { OnOk result (keys.new.items ≡ keys.old.items ++ flat_map (λ one. one) declared.items) }
{
    for one in declared {
        keys.append(&mut one.into_vec())?;
    }
    Ok(())
}

/// The keys of all declarations.
fn module_keys(alloc: Global, files: &[FileTree]) -> Result<Vec<Key>, NoMemory>
    ensures { IfOk result (λ keys. keys.items ≡ spec.module_keys files.now) }
{
    let mut keys = Vec::new(alloc);
    for file in files {
        let declared = declared_keys(alloc, file)?;
        add_keys(&mut keys, declared)?;
    }
    Ok(keys)
}

/// Brings the answers to some keys into the memo.
fn answer_all(
    alloc: Global,
    index: &Index,
    memo: &mut Memo<Key, Meaning>,
    unanswered: &Unanswered,
    keys: &[Key],
) -> Result<(), NoMemory>
    requires { IsTrueMemo (spec.rules index.now) (spec.module_keys index.now) (get key_order memo.old) }
    ensures memo { IsTrueMemo (spec.rules index.now) (spec.module_keys index.now) (get key_order memo.new) }
    ensures answered { OnOk result (AreAnswered index.now (get key_order memo.new) keys.now) }
{
    let tasks = ModuleTasks { index, unanswered };
    for key in keys {
        answer(alloc, &tasks, memo, key)?;
    }
    Ok(())
}

/// What each key of a module means, found once for all of them.
///
/// Contracts see it as the trees of the module.
#[derive(Drop)]
pub struct Meanings<'a> {
    index: &'a Index,
    memo: Memo<Key, Meaning>,
    unanswered: Unanswered,
}

impl<'a> Model for Meanings<'a> {
    ghost use Rattle.std.specs.Prelude.{List};
    ghost use Rattle.swift_ast.specs.declared.declarations.FileTree.{FileTree};
    ghost use Rattle.std.specs.Coded.{codes};
    ghost use Rattle.std.specs.BTreeMap.{get};
    ghost use Rattle.dep_key.specs.KeyOrder.{key_order};
    ghost use Rattle.swift_ast.specs.contracts.expressions.Expr as expr;
    ghost use Rattle.swift_ast.specs.contracts.statements.Block as block;
    ghost use Rattle.decl_meaning.specs.Settled.{IsSettled};

    ghost Value = { List FileTree };

    ghost coded = { Prim.hlevel (codes, expr.the_row.coded, block.the_row.coded) };

    ghost view = { λ m. m.index.now };

    ghost invariant = { λ m. IsSettled m.index.now (get key_order m.memo) };
}

impl<'a> Answers for Meanings<'a> {
    ghost meanings = { λ m. spec.meaning_in m };

    fn meaning(&self, key: &Key) -> &Meaning {
        meaning_so_far(self.index, &self.memo, &self.unanswered, key)
    }
}

/// Finds what each key of a module means.
///
/// A declaration is read again where its last reading asked a key without answer, once for each time that all keys which it
/// asked so far have got theirs. An error says that memory was wanted and not there.
pub fn settle(alloc: Global, index: &Index) -> Result<Meanings<'_>, NoMemory>
    ensures files { IfOk result (λ meanings. meanings ≡ index.now) }
{
    let keys = module_keys(alloc, index.files())?;
    let mut memo = BTreeMap::new(alloc);
    let unanswered = Unanswered::new();
    answer_all(alloc, index, &mut memo, &unanswered, keys.as_slice())?;
    Ok(Meanings {
        index,
        memo,
        unanswered,
    })
}
