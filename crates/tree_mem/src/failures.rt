ghost use Rattle.std.specs.Prelude.{◌≡◌, ◌+◌, ◌||◌, nat_eq, Some};
ghost use Rattle.std.specs.List.{list_any};
ghost use Rattle.drv_outside.specs.TreeState.{fails_at, is_stopped};
ghost use Rattle.tree_mem.specs.Failures.{no_failures, settings_of, stopping_after, failing};

use std::alloc::Global;

/// Which calls are to fail. Calls are counted from 0 from the place in the list of calls at which
/// the setting was made.
#[derive(Drop)]
pub struct MemFailures {
    numbers: Vec<u32>,
    numbers_since: usize,
    stop_after: Option<u64>,
    stop_after_since: usize,
}

impl MemFailures {
    /// No call is to fail.
    pub fn none(alloc: Global) -> MemFailures
        ensures { settings_of result ≡ no_failures }
    {
        MemFailures {
            numbers: Vec::new(alloc),
            numbers_since: 0,
            stop_after: None,
            stop_after_since: 0,
        }
    }

    /// The calls with these numbers are to fail, counted from a place in the list of calls.
    pub fn fail_calls(&mut self, numbers: Vec<u32>, since: usize)
        ensures { settings_of self.new ≡ failing numbers.items since (settings_of self.old) }
    {
        self.numbers = numbers;
        self.numbers_since = since;
    }

    /// Every call is to fail once so many have passed, counted from a place in the list of calls.
    pub fn stop_after(&mut self, calls: u64, since: usize)
        ensures { settings_of self.new ≡ stopping_after calls since (settings_of self.old) }
    {
        self.stop_after = Some(calls);
        self.stop_after_since = since;
    }

    /// No call is to fail any more. This takes no memory.
    pub fn clear(&mut self)
        ensures { settings_of self.new ≡ no_failures }
    {
        self.numbers.clear();
        self.numbers_since = 0;
        self.stop_after = None;
        self.stop_after_since = 0;
    }

    /// Whether the call that has this place in the list of calls is to fail.
    pub fn fails_at(&self, place: usize) -> bool
        ensures { result ≡ fails_at (settings_of self.now) place }
    {
        is_numbered(&self.numbers, self.numbers_since, place)
            || is_stopped(self.stop_after, self.stop_after_since, place)
    }
}

// Whether one of these numbers, counted from one place in the list of calls, is at another.
fn is_numbered(numbers: &[u32], since: usize, place: usize) -> bool
    ensures { result ≡ list_any (λ number. nat_eq (since + number) place) numbers.now }
{
    numbers.iter().any(|number| is_next(since, *number, place))
}

// Whether the call with this number, counted from one place in the list, is at another.
fn is_next(since: usize, number: u32, next: usize) -> bool
    ensures { result ≡ nat_eq (since + number) next }
{
    since as u128 + number as u128 == next as u128
}

// Whether a stop lets no call pass that has this place in the list of calls.
fn is_stopped(stop_after: Option<u64>, since: usize, place: usize) -> bool
    ensures { result ≡ is_stopped stop_after since place }
{
    match stop_after {
        Some(passing) => since as u128 + passing as u128 <= place as u128,
        None => false,
    }
}
