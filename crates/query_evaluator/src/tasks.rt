ghost use Rattle.std.specs.Prelude.{List, IfOk};
ghost use Rattle.std.specs.BTreeMap.{get};
ghost use Rattle.queries.specs.Queries.{Rules, IsListing, seen};
ghost use Rattle.query_evaluator.specs.Memos.{known, Tells};

use crate::QueryKey;
use dep_key::NoMemory;
use std::alloc::Global;
use std::collections::BTreeMap;

/// The answers so far: `None` is kept of a key that has none, since it needs itself, or a key
/// without answer.
pub type Memo<K, A> = BTreeMap<K, Option<A>>;

/// What reading a key's task comes to.
#[derive(Drop)]
pub enum Reading<K, A> {
    /// The task's value.
    Value(A),

    /// Keys that the task needs and that aren't known: one at least, and best all that are found
    /// at once, since the task is read again only behind the last of them.
    Wants(Vec<K>),
}

/// How the keys of a language get their answers.
pub trait Tasks<K: QueryKey, A> {
    /// The task of each key.
    ghost rules: { Self → Rules K A };

    /// The keys that have a provider.
    ghost keys: { Self → List K };

    /// Reads a key's task with the answers of a memo.
    fn read(&self, alloc: Global, memo: &Memo<K, A>, key: &K) -> Result<Reading<K, A>, NoMemory>
        ensures { IfOk result (λ reading. Tells (seen (rules self.now) (known (get K.cmp memo.now))) ((rules self.now).means key.now) reading) };

    ghost listing: { (tasks : Self) → IsListing (rules tasks) (keys tasks) };
}
