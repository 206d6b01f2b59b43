ghost use Rattle.std.specs.Prelude.{◌≡◌, IsTrue, None, option_copied};
ghost use Rattle.drv_outside.specs.Ascending.{ascend_after, is_above};
ghost use Rattle.drv_outside.specs.TreeState.{AscendByPath};

use crate::Entry;

fn is_above(entry: &Entry, last: Option<&Entry>) -> bool
    ensures { result ≡ is_above entry.now (option_copied last.entry) }
{
    match last {
        Some(last) => last.path < entry.path,
        None => true,
    }
}

fn ascend(entries: &[Entry]) -> bool
    ensures { result ≡ ascend_after None entries.now }
{
    let mut last = None;
    for entry in entries {
        if !is_above(entry, last) {
            return false;
        }
        last = Some(entry);
    }
    true
}

/// Whether each entry's path is below those after it, byte by byte, as a tree has to list them.
pub fn ascend_by_path(entries: &[Entry]) -> bool
    ensures sound { IsTrue result → AscendByPath entries.now }
    ensures complete { AscendByPath entries.now → IsTrue result }
{
    ascend(entries)
}
