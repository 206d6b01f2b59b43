//! Which files are due, in rounds: the plain definition.

use crate::modules::{Change, File, Print, file_at};

/// What a change comes to.
#[derive(Clone, Copy, Debug, PartialEq, Eq)]
pub struct Outcome {
    /// Which files are due.
    pub due: [bool; 8],
    /// Which keys have changed.
    pub changed: [bool; 4],
    /// The least key that each due file used and that moved in a removed or due file other than itself.
    pub traced: [Option<usize>; 8],
}

fn print_at(file: &Option<File>, key: usize) -> Option<Print> {
    let Some(file) = file else {
        return None;
    };
    match file.get(key) {
        Some(Some(cell)) => Some(cell.print),
        _ => None,
    }
}

fn has_moved(change: &Change, file: usize, key: usize) -> bool {
    let before = file_at(&change.before, file);
    let now = file_at(&change.now, file);
    match (print_at(&before, key), print_at(&now, key)) {
        (Some(old), Some(new)) => old != new,
        (None, None) => false,
        _ => true,
    }
}

fn uses(change: &Change, file: usize, key: usize) -> bool {
    let Some(cells) = file_at(&change.before, file) else {
        return false;
    };
    for cell in &cells {
        if let Some(cell) = cell {
            if cell.uses.get(key).copied().unwrap_or(false) {
                return true;
            }
        }
    }
    false
}

/// Whether the files that a key may come from have it moved: those that are removed or due.
fn moves(change: &Change, due: &[bool; 8], but: Option<usize>, key: usize) -> bool {
    for (file, is_due) in due.iter().enumerate() {
        let removed = file_at(&change.before, file).is_some()
            && file_at(&change.now, file).is_none();
        if (removed || *is_due) && but != Some(file) && has_moved(change, file, key) {
            return true;
        }
    }
    false
}

/// The least key that a file used and that moved in a removed or due file, other than the one left out.
fn least_moved(change: &Change, due: &[bool; 8], file: usize, but: Option<usize>) -> Option<usize> {
    for key in 0..4usize {
        if uses(change, file, key) && moves(change, due, but, key) {
            return Some(key);
        }
    }
    None
}

/// The files that are due after one round more.
fn round(change: &Change, due: &[bool; 8]) -> [bool; 8] {
    let mut more = *due;
    for (file, is_due) in more.iter_mut().enumerate() {
        let listed = file_at(&change.now, file).is_some();
        if listed && least_moved(change, due, file, None).is_some() {
            *is_due = true;
        }
    }
    more
}

/// What a change comes to, by rounds.
pub fn by_rounds(change: &Change) -> Outcome {
    let mut due = change.first;
    for _ in 0..8u8 {
        due = round(change, &due);
    }
    let mut changed = [false; 4];
    for (key, moved) in changed.iter_mut().enumerate() {
        *moved = moves(change, &due, None, key);
    }
    let mut traced = [None; 8];
    for (file, from) in traced.iter_mut().enumerate() {
        if due.get(file).copied().unwrap_or(false) {
            *from = least_moved(change, &due, file, Some(file));
        }
    }
    Outcome {
        due,
        changed,
        traced,
    }
}
