//! What is known of a module while its keys are answered.

ghost use Rattle.std.specs.Prelude.{◌≡◌, filter, not, is_some, IfOk};
ghost use Rattle.std.specs.BTreeMap.{get};
ghost use Rattle.queries.specs.Queries.{seen};
ghost use Rattle.query_evaluator.specs.Memos.{known};
ghost use Rattle.dep_key.specs.KeyOrder.{key_order};
ghost use Rattle.type_rules.specs.declared.meaning.Meaning.TheVariants as means;
ghost use Rattle.type_infer.specs.Meanings.{rules};
ghost use Rattle.type_infer.specs.Demand.{or_circular};

use decl_index::Index;
use dep_key::{Key, NoMemory};
use query_evaluator::Memo;
use std::alloc::Global;
use std::collections::BTreeSet;
use type_rules::{Answers, Meaning};

/// What a key means that no declaration has, and one that has no answer.
#[derive(Drop)]
pub struct Unanswered {
    no_provider: Meaning,
    circular: Meaning,
    ghost no_provider_is: { no_provider ≡ means.NoProvider },
    ghost circular_is: { circular ≡ means.Circular },
}

impl Unanswered {
    pub fn new() -> Unanswered {
        Unanswered {
            no_provider: Meaning::NoProvider,
            circular: Meaning::Circular,
        }
    }
}

/// Whether a declaration has a key.
#[tactic(auto, using(crate::proofs::ProviderLemmas::provided))]
fn has_provider(index: &Index, key: &Key) -> bool
    ensures { result ≡ (rules index.now).has key.now }
{
    match index.providers(key) {
        [] => false,
        _ => true,
    }
}

/// Whether nothing is known of a key.
fn is_unknown(index: &Index, memo: &Memo<Key, Meaning>, key: &Key) -> bool
    ensures { result ≡ not (is_some (seen (rules index.now) (known (get key_order memo.now)) key.now)) }
{
    if !has_provider(index, key) {
        return false;
    }
    match memo.get(key) {
        Some(Some(_)) => false,
        Some(None) => true,
        None => true,
    }
}

/// What is known of a key, and `Circular` where nothing is.
pub fn meaning_so_far<'a>(
    index: &Index,
    memo: &'a Memo<Key, Meaning>,
    unanswered: &'a Unanswered,
    key: &Key,
) -> &'a Meaning
    ensures { result.now ≡ or_circular (seen (rules index.now) (known (get key_order memo.now))) key.now }
{
    if !has_provider(index, key) {
        return &unanswered.no_provider;
    }
    match memo.get(key) {
        Some(Some(meaning)) => meaning,
        Some(None) => &unanswered.circular,
        None => &unanswered.circular,
    }
}

/// Of the keys that were asked, those of which nothing is known.
pub fn unknown_keys(
    alloc: Global,
    index: &Index,
    memo: &Memo<Key, Meaning>,
    asked: BTreeSet<Key>,
) -> Result<Vec<Key>, NoMemory>
    ensures { IfOk result (λ keys. keys.items ≡ filter (λ key. not (is_some (seen (rules index.now) (known (get key_order memo.now)) key))) asked.keys) }
{
    let mut keys = Vec::new(alloc);
    for key in asked {
        if is_unknown(index, memo, &key) {
            keys.push(key)?;
        }
    }
    Ok(keys)
}

/// The answers that a memo has so far, and `Circular` in place of each other: no reading goes on with it, so that whatever it
/// asks is needed.
#[derive(Clone, Copy)]
pub struct MemoAnswers<'a> {
    pub index: &'a Index,
    pub memo: &'a Memo<Key, Meaning>,
    pub unanswered: &'a Unanswered,
}

impl<'a> Answers for MemoAnswers<'a> {
    ghost meanings = { λ a. or_circular (seen (rules a.index.now) (known (get key_order a.memo.now))) };

    fn meaning(&self, key: &Key) -> &Meaning {
        meaning_so_far(self.index, self.memo, self.unanswered, key)
    }
}
