ghost use Rattle.std.specs.Prelude.{◌≡◌, IfOk, option_copied};
ghost use Rattle.ordered_lists.specs.Repeats.{IsLeastRepeat, comes_before, least_with};

use std::alloc::{AllocError, Global};
use std::collections::BTreeSet;

// Whether an element is below another, where there is another.
fn comes_before<T: Ord>(item: &T, other: Option<&T>) -> bool
    ensures { result ≡ comes_before T.cmp item.now (option_copied other.entry) }
{
    match other {
        Some(other) => item < other,
        None => true,
    }
}

// The least repeated element once one more is seen.
fn least_with<'a, T: Ord>(least: Option<&'a T>, item: &'a T, is_new: bool) -> Option<&'a T>
    ensures { option_copied result ≡ least_with T.cmp (option_copied least.entry) item.now is_new }
{
    if !is_new && comes_before(item, least) {
        Some(item)
    } else {
        least
    }
}

/// The least element that stands more than once in a list, or `None` where each stands once.
///
/// Takes the time of sorting the list. Fails only where memory is wanted and not there.
pub fn least_repeat<'a, T: Ord>(alloc: Global, items: &'a [T]) -> Result<Option<&'a T>, AllocError>
    ensures { IfOk result (λ found. IsLeastRepeat T.cmp items.now (option_copied found)) }
{
    let mut seen = BTreeSet::new(alloc);
    let mut least = None;
    for item in items {
        let is_new = seen.insert(item)?;
        least = least_with(least, item, is_new);
    }
    Ok(least)
}
