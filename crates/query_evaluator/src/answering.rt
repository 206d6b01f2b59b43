ghost use Rattle.std.specs.Prelude.{◌≡◌, ◌<◌, ◌++◌, ◌∷◌, [], List, Some, None, IfOk, OnOk, All, true, false};
ghost use Rattle.std.specs.Option.{IfSome};
ghost use Rattle.std.specs.BTreeMap.{get};
ghost use Rattle.std.specs.BTreeSet.{contains};
ghost use Rattle.queries.specs.Queries.{seen, solution, IsBelow};
ghost use Rattle.query_evaluator.specs.Memos.{known, IsTrueMemo};
ghost use Rattle.query_evaluator.specs.Search.{IsAwaited, IsRequest, IsState, IsStep, work};

use crate::marks::{is_asked, is_known};
use crate::request::{Request, Step};
use crate::{Memo, QueryKey, Reading, Tasks};
use dep_key::NoMemory;
use std::alloc::Global;
use std::collections::BTreeSet;

/// The next key that has no answer, of those that a key waits for.
fn next_unknown<K: QueryKey, A, T: Tasks<K, A>>(
    tasks: &T,
    memo: &Memo<K, A>,
    key: &K,
    wanted: &mut Vec<K>,
) -> Option<K>
    requires { All (IsAwaited (T.rules tasks.now) key.now) wanted.old.items }
    ensures rest { All (IsAwaited (T.rules tasks.now) key.now) wanted.new.items }
    ensures awaited { IfSome result (λ next. IsAwaited (T.rules tasks.now) key.now next) }
    ensures unknown { IfSome result (λ next. known (get K.cmp memo.now) next ≡ None) }
{
    while let Some(next) = wanted.pop() {
        if !is_known(memo, &next) {
            return Some(next);
        }
    }
    None
}

/// Reads the task of a request anew: its answer, or the first of the keys that it wants.
fn read_anew<K: QueryKey, A, T: Tasks<K, A>>(
    alloc: Global,
    tasks: &T,
    memo: &Memo<K, A>,
    request: &mut Request<K>,
) -> Result<Step<K, A>, NoMemory>
    requires memo { IsTrueMemo (T.rules tasks.now) (T.keys tasks.now) (get K.cmp memo.now) }
    requires request { IsRequest (T.rules tasks.now) request.old }
    ensures key { OnOk result (request.new.key ≡ request.old.key) }
    ensures request { OnOk result (IsRequest (T.rules tasks.now) request.new) }
    ensures step { IfOk result (λ step. IsStep (T.rules tasks.now) (T.keys tasks.now) (get K.cmp memo.now) request.old.key step) }
{
    match tasks.read(alloc, memo, &request.key)? {
        Reading::Value(answer) => Ok(Step::Answer(answer)),
        Reading::Wants(mut wanted) => match wanted.pop() {
            Some(next) => {
                request.wanted = wanted;
                Ok(Step::Need(next))
            }
            None => Err(NoMemory),
        },
    }
}

/// The answer to a request, or a key that it needs and that has no answer.
fn advance<K: QueryKey, A, T: Tasks<K, A>>(
    alloc: Global,
    tasks: &T,
    memo: &Memo<K, A>,
    request: &mut Request<K>,
) -> Result<Step<K, A>, NoMemory>
    requires memo { IsTrueMemo (T.rules tasks.now) (T.keys tasks.now) (get K.cmp memo.now) }
    requires request { IsRequest (T.rules tasks.now) request.old }
    ensures key { OnOk result (request.new.key ≡ request.old.key) }
    ensures request { OnOk result (IsRequest (T.rules tasks.now) request.new) }
    ensures step { IfOk result (λ step. IsStep (T.rules tasks.now) (T.keys tasks.now) (get K.cmp memo.now) request.old.key step) }
{
    match next_unknown(tasks, memo, &request.key, &mut request.wanted) {
        Some(next) => Ok(Step::Need(next)),
        None => {
            let step = read_anew(alloc, tasks, memo, request)?;
            Ok(step)
        }
    }
}

/// Keeps what is true of a key, which ends its request.
fn keep<K: QueryKey, A: Drop, T: Tasks<K, A>>(
    tasks: &T,
    memo: &mut Memo<K, A>,
    marks: &BTreeSet<K>,
    stack: &[Request<K>],
    request: Request<K>,
    answer: Option<A>,
) -> Result<(), NoMemory>
    requires state { IsState (T.rules tasks.now) (T.keys tasks.now) (get K.cmp memo.old) (contains K.cmp marks.now) (stack.now ++ request ∷ []) }
    requires answer { seen (T.rules tasks.now) (solution (T.rules tasks.now) (T.keys tasks.now)) request.key ≡ answer }
    ensures memo { IsTrueMemo (T.rules tasks.now) (T.keys tasks.now) (get K.cmp memo.new) }
    ensures kept { IsBelow (get K.cmp memo.old) (get K.cmp memo.new) }
    ensures state { OnOk result (IsState (T.rules tasks.now) (T.keys tasks.now) (get K.cmp memo.new) (contains K.cmp marks.now) stack.now) }
    ensures less { OnOk result (work (T.keys tasks.now) (get K.cmp memo.new) (contains K.cmp marks.now) stack.now < work (T.keys tasks.now) (get K.cmp memo.old) (contains K.cmp marks.now) (stack.now ++ request ∷ [])) }
{
    memo.insert(request.key, answer)?;
    Ok(())
}

/// Asks for a key first that a request waits for.
fn ask_first<K: QueryKey, A, T: Tasks<K, A>>(
    alloc: Global,
    tasks: &T,
    memo: &Memo<K, A>,
    marks: &mut BTreeSet<K>,
    stack: &mut Vec<Request<K>>,
    request: Request<K>,
    next: K,
) -> Result<(), NoMemory>
    requires state { IsState (T.rules tasks.now) (T.keys tasks.now) (get K.cmp memo.now) (contains K.cmp marks.old) (stack.old.items ++ request ∷ []) }
    requires awaited { IsAwaited (T.rules tasks.now) request.key next }
    requires fresh { get K.cmp memo.now next ≡ None }
    requires unmarked { contains K.cmp marks.old next ≡ false }
    ensures state { OnOk result (IsState (T.rules tasks.now) (T.keys tasks.now) (get K.cmp memo.now) (contains K.cmp marks.new) stack.new.items) }
    ensures marks { OnOk result ((key : K) → contains K.cmp marks.old key ≡ true → contains K.cmp marks.new key ≡ true) }
    ensures less { OnOk result (work (T.keys tasks.now) (get K.cmp memo.now) (contains K.cmp marks.new) stack.new.items < work (T.keys tasks.now) (get K.cmp memo.now) (contains K.cmp marks.old) (stack.old.items ++ request ∷ [])) }
{
    marks.insert(next.copy()?)?;
    stack.push(request)?;
    stack.push(Request {
        key: next,
        wanted: Vec::new(alloc),
    })?;
    Ok(())
}

/// Takes the last request a step on.
fn turn<K: QueryKey, A: Drop, T: Tasks<K, A>>(
    alloc: Global,
    tasks: &T,
    memo: &mut Memo<K, A>,
    marks: &mut BTreeSet<K>,
    stack: &mut Vec<Request<K>>,
    mut request: Request<K>,
) -> Result<(), NoMemory>
    requires { IsState (T.rules tasks.now) (T.keys tasks.now) (get K.cmp memo.old) (contains K.cmp marks.old) (stack.old.items ++ request ∷ []) }
    ensures memo { IsTrueMemo (T.rules tasks.now) (T.keys tasks.now) (get K.cmp memo.new) }
    ensures kept { IsBelow (get K.cmp memo.old) (get K.cmp memo.new) }
    ensures state { OnOk result (IsState (T.rules tasks.now) (T.keys tasks.now) (get K.cmp memo.new) (contains K.cmp marks.new) stack.new.items) }
    ensures marks { OnOk result ((key : K) → contains K.cmp marks.old key ≡ true → contains K.cmp marks.new key ≡ true) }
    ensures less { OnOk result (work (T.keys tasks.now) (get K.cmp memo.new) (contains K.cmp marks.new) stack.new.items < work (T.keys tasks.now) (get K.cmp memo.old) (contains K.cmp marks.old) (stack.old.items ++ request ∷ [])) }
{
    match advance(alloc, tasks, memo, &mut request)? {
        Step::Answer(answer) => keep(tasks, memo, marks, stack, request, Some(answer))?,
        Step::Need(next) => {
            if is_asked(memo, marks, &next) {
                keep(tasks, memo, marks, stack, request, None)?;
            } else {
                ask_first(alloc, tasks, memo, marks, stack, request, next)?;
            }
        }
    }
    Ok(())
}

/// Brings the answer to a key into the memo, with the answers that it needs.
///
/// Each key's task is read once, and again behind the keys that a reading wants. No call goes
/// deeper the longer a chain of keys is. After an `Err` the memo holds true answers still.
pub fn answer<K: QueryKey, A: Drop, T: Tasks<K, A>>(
    alloc: Global,
    tasks: &T,
    memo: &mut Memo<K, A>,
    key: &K,
) -> Result<(), NoMemory>
    requires { IsTrueMemo (T.rules tasks.now) (T.keys tasks.now) (get K.cmp memo.old) }
    ensures memo { IsTrueMemo (T.rules tasks.now) (T.keys tasks.now) (get K.cmp memo.new) }
    ensures kept { IsBelow (get K.cmp memo.old) (get K.cmp memo.new) }
    ensures answered { OnOk result (get K.cmp memo.new key.now ≡ Some (solution (T.rules tasks.now) (T.keys tasks.now) key.now)) }
{
    let mut marks = BTreeSet::new(alloc);
    let mut stack = Vec::new(alloc);
    marks.insert(key.copy()?)?;
    stack.push(Request {
        key: key.copy()?,
        wanted: Vec::new(alloc),
    })?;
    while let Some(request) = stack.pop() {
        turn(alloc, tasks, memo, &mut marks, &mut stack, request)?;
    }
    Ok(())
}
