ghost use Rattle.std.specs.Prelude.{◌≡◌, ◌↔◌, IsTrue, option_copied};
ghost use Rattle.std.specs.List.Sorted.{IsStrictlySortedBy};
ghost use Rattle.ordered_lists.specs.Ascending.{is_above, steps_up};

// Whether an element is above another, where there is another.
fn is_above<T: Ord>(item: &T, last: Option<&T>) -> bool
    ensures { result ≡ is_above T.cmp item.now (option_copied last.entry) }
{
    match last {
        Some(last) => last < item,
        None => true,
    }
}

fn steps_up<T: Ord>(items: &[T]) -> bool
    ensures { result ≡ steps_up T.cmp items.now }
{
    let mut last = None;
    for item in items {
        if !is_above(item, last) {
            return false;
        }
        last = Some(item);
    }
    true
}

/// Whether each element is below all those after it, so that each stands once. Compares each with the
/// next alone.
pub fn ascends<T: Ord>(items: &[T]) -> bool
    ensures { IsTrue result ↔ IsStrictlySortedBy T.cmp items.now }
{
    steps_up(items)
}
