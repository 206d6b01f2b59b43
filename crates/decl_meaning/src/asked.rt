//! The keys that a reading asks.

ghost use Rattle.std.specs.Prelude.{◌≡◌, [], IfOk, OnOk};
ghost use Rattle.std.specs.BTreeSet.{insert_key};
ghost use Rattle.dep_key.specs.KeyOrder.{key_order};
ghost use Rattle.type_infer.specs.Readings as spec;
ghost use Rattle.decl_meaning.specs.Asking.{read};

use dep_key::{Key, Name, NoMemory, Path};
use expr_check::{Log, Scope, type_named};
use expr_tree::check_expression;
use sqlite_items::Items;
use std::alloc::Global;
use std::collections::BTreeSet;
use std::marker::Model;
use swift_ast::{Expr, TypeName};
use type_rules::{Answers, Ty};

/// The keys that were asked so far. What is wrong with a declaration isn't said where it is read for its meaning.
#[derive(Drop)]
pub struct AskedKeys {
    log: Log,
}

impl Model for AskedKeys {
    ghost use Rattle.std.specs.Prelude.{List};
    ghost use Rattle.dep_key.specs.declared.key.Key.{Key};

    ghost Value = { List Key };

    ghost view = { λ a. a.log.asked };
}

impl AskedKeys {
    /// Before anything is asked.
    pub fn new(alloc: Global) -> AskedKeys
        ensures { result ≡ [] }
    {
        AskedKeys {
            log: Log::new(alloc),
        }
    }

    /// Notes that a key is asked.
    pub fn ask(&mut self, key: &Key) -> Result<(), NoMemory>
        ensures { OnOk result (self.new ≡ insert_key key_order self.old key.now) }
    {
        self.log.ask(key)?;
        Ok(())
    }

    /// The keys.
    pub fn into_keys(self) -> BTreeSet<Key>
        ensures { result.keys ≡ self }
    {
        let (_, asked) = self.log.into_sets();
        asked
    }
}

/// Where an initial value stands, as its declaration is read for its type.
fn at_file(alloc: Global, path: &str) -> Result<Scope, NoMemory>
    ensures { IfOk result (λ scope. scope ≡ spec.at_file path.now) }
{
    let path = Path::from_str(alloc, path)?;
    Ok(Scope {
        path,
        context: None,
        self_type: None,
        blocks: Items::new(alloc),
        types: Items::new(alloc),
        result: None,
        emits: false,
    })
}

/// The type that a name means.
#[tactic(auto, using(crate::proofs::ReadLemmas::read_written))]
pub fn written_type<A: Answers>(
    alloc: Global,
    answers: &A,
    asked: &mut AskedKeys,
    path: &str,
    tree: &TypeName,
) -> Result<Option<Ty>, NoMemory>
    ensures { IfOk result (λ got. (got, asked.new) ≡ read (A.meanings answers.now) (spec.written_type path.now tree.now) asked.old) }
{
    asked.log.mute(true);
    let ty = type_named(alloc, answers, &mut asked.log, path, &tree.name)?;
    Ok(ty)
}

/// The type of an initial value.
#[tactic(auto, using(crate::proofs::ReadLemmas::read_value))]
pub fn value_type<A: Answers>(
    alloc: Global,
    answers: &A,
    asked: &mut AskedKeys,
    path: &str,
    tree: &Expr,
) -> Result<Option<Ty>, NoMemory>
    ensures { IfOk result (λ got. (got, asked.new) ≡ read (A.meanings answers.now) (spec.value_type path.now tree.now) asked.old) }
{
    let scope = at_file(alloc, path)?;
    asked.log.mute(true);
    match check_expression(alloc, answers, &mut asked.log, &scope, tree)? {
        None => Ok(None),
        Some(typed) => Ok(Some(typed.ty)),
    }
}
