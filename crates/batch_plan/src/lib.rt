//! How the pending files of a build are cut into batches, one for each job.
#![tactic(auto)]

ghost use Rattle.std.specs.Prelude.{◌≡◌, ◌+◌, ◌<◌, ◌≤◌};
ghost use Rattle.batch_plan.specs.Batches.{BatchesFill, batch_at, size_of};

/// How many places a batch has: an equal share for each worker, rounded up, no more than the limit, and
/// one at least.
fn size_of(n: u32, workers: u32, limit: u32) -> u32
    requires workers { 1 ≤ workers }
    ensures { result ≡ size_of n workers limit }
{
    let share = n.div_ceil(workers);
    share.min(limit).max(1)
}

/// The places of the batch of a number: the first of them, and the one behind the last.
///
/// `n` is the number of places, `workers` and `limit` are at least 1, and `i` counts batches from 0. Behind
/// the last batch both bounds are `n`. Takes no memory.
pub fn bounds(n: u32, workers: u32, limit: u32, i: u32) -> (u32, u32)
    requires workers { 1 ≤ workers }
    requires limit { 1 ≤ limit }
    requires within { i < n }
    ensures bounds { result ≡ batch_at n (size_of n workers limit) i }
    ensures order { result.0 ≤ result.1 }
    ensures limited { result.1 ≤ result.0 + limit }
{
    let size = u64::from(size_of(n, workers, limit));
    let first = u64::from(i) * size;
    let end = first + size;
    let places = u64::from(n);
    (first.min(places) as u32, end.min(places) as u32)
}

/// Batches meet, and each place is in one of them.
pub fn batches_fill()
    ensures { BatchesFill }
{}
