//! The keys of a module as tasks.

ghost use Rattle.std.specs.Prelude.{IfOk};
ghost use Rattle.std.specs.BTreeMap.{get};
ghost use Rattle.queries.specs.Queries.{seen};
ghost use Rattle.query_evaluator.specs.Memos.{known, Tells};
ghost use Rattle.dep_key.specs.KeyOrder.{key_order};
ghost use Rattle.decl_index.specs.Found.{shown_declaration};
ghost use Rattle.type_infer.specs.Readings.{item_query};
ghost use Rattle.type_infer.specs.Meanings.{rules, module_keys};
ghost use Rattle.type_infer.proofs.Ending.{listing};

use crate::memo_answers::{MemoAnswers, Unanswered, unknown_keys};
use crate::{AskedKeys, item_meaning};
use decl_index::{Declared, Index};
use dep_key::{Key, NoMemory};
use query_evaluator::{Memo, Reading, Tasks};
use std::alloc::Global;
use type_rules::Meaning;

/// What a declaration tells of a key that it alone has, with the answers so far: the meaning, or the keys that it needs first.
fn read_declared(
    alloc: Global,
    index: &Index,
    memo: &Memo<Key, Meaning>,
    unanswered: &Unanswered,
    key: &Key,
    declared: Declared<'_>,
) -> Result<Reading<Key, Meaning>, NoMemory>
    ensures { IfOk result (λ reading. Tells (seen (rules index.now) (known (get key_order memo.now))) (item_query (shown_declaration declared.entry).path key.now (shown_declaration declared.entry).item) reading) }
{
    let answers = MemoAnswers {
        index,
        memo,
        unanswered,
    };
    let mut asked = AskedKeys::new(alloc);
    let meaning = item_meaning(
        alloc,
        &answers,
        &mut asked,
        declared.path,
        key,
        declared.item,
    )?;
    let wanted = unknown_keys(alloc, index, memo, asked.into_keys())?;
    if wanted.is_empty() {
        Ok(Reading::Value(meaning))
    } else {
        Ok(Reading::Wants(wanted))
    }
}

/// The keys of a module, each answered by the declarations that have it.
#[derive(Clone, Copy)]
pub struct ModuleTasks<'a> {
    pub index: &'a Index,
    pub unanswered: &'a Unanswered,
}

impl<'a> Tasks<Key, Meaning> for ModuleTasks<'a> {
    ghost rules = { λ t. rules t.index.now };

    ghost keys = { λ t. module_keys t.index.now };

    ghost listing = { λ t. listing t.index.now };

    fn read(
        &self,
        alloc: Global,
        memo: &Memo<Key, Meaning>,
        key: &Key,
    ) -> Result<Reading<Key, Meaning>, NoMemory> {
        match self.index.providers(key) {
            [] => Ok(Reading::Value(Meaning::NoProvider)),
            [only] => match self.index.declared(*only) {
                Some(declared) => {
                    let reading = read_declared(
                        alloc,
                        self.index,
                        memo,
                        self.unanswered,
                        key,
                        declared,
                    )?;
                    Ok(reading)
                }
                None => Err(NoMemory),
            },
            _ => Ok(Reading::Value(Meaning::Ambiguous)),
        }
    }
}
