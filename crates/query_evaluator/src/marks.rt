ghost use Rattle.std.specs.Prelude.{◌≡◌, ◌||◌, is_some};
ghost use Rattle.std.specs.BTreeMap.{get};
ghost use Rattle.std.specs.BTreeSet.{contains};
ghost use Rattle.query_evaluator.specs.Memos.{known};

use crate::{Memo, QueryKey};
use std::collections::BTreeSet;

/// Whether a memo has the answer to a key.
pub fn is_known<K: QueryKey, A>(memo: &Memo<K, A>, key: &K) -> bool
    ensures { result ≡ is_some (known (get K.cmp memo.now) key.now) }
{
    match memo.get(key) {
        Some(Some(_)) => true,
        Some(None) => false,
        None => false,
    }
}

/// Whether a key was asked for: it has an answer, or a request for it is in progress.
pub fn is_asked<K: QueryKey, A>(memo: &Memo<K, A>, marks: &BTreeSet<K>, key: &K) -> bool
    ensures { result ≡ (is_some (get K.cmp memo.now key.now) || contains K.cmp marks.now key.now) }
{
    memo.contains_key(key) || marks.contains(key)
}
