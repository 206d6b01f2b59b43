ghost use Rattle.std.specs.Prelude.{◌≡◌, ◌<◌, ◌≤◌, ◌++◌, length, IfOk, OnOk};
ghost use Rattle.dep_key.specs.declared.key.Key.{Key};
ghost use Rattle.dep_key.specs.GraphOrder.{AreAscending, keys_of};
ghost use Rattle.dep_key.specs.Moved.{has_moved};
ghost use Rattle.dep_graph.specs.Moves.{HasStepped, MovedTellsPrints, is_one};

use dep_key::{Key, NoMemory, Node};
use std::alloc::Global;
use std::cmp::Ordering;

/// How far the two lists have been read.
#[derive(Clone, Copy, Debug)]
struct Place {
    old: usize,
    new: usize,
}

/// Goes past the lower key of the two that stand first, or past both where they are the same.
fn step(old: &[Node], new: &[Node], at: Place, keys: &mut Vec<Key>) -> Result<Place, NoMemory>
    requires old { AreAscending (keys_of old.now) }
    requires new { AreAscending (keys_of new.now) }
    requires left { at.old < length old.now }
    requires right { at.new ≤ length new.now }
    ensures { IfOk result (λ next. HasStepped old.now new.now at.old at.new keys.old.items keys.new.items next.old next.new) }
{
    let first = &old[at.old];
    let Some(second) = new.get(at.new) else {
        let key = first.key.clone()?;
        keys.push(key)?;
        return Ok(Place {
            old: at.old + 1,
            new: at.new,
        });
    };
    match first.key.cmp(&second.key) {
        Ordering::Less => {
            let key = first.key.clone()?;
            keys.push(key)?;
            Ok(Place {
                old: at.old + 1,
                new: at.new,
            })
        }
        Ordering::Greater => {
            let key = second.key.clone()?;
            keys.push(key)?;
            Ok(Place {
                old: at.old,
                new: at.new + 1,
            })
        }
        Ordering::Equal => {
            if first.print != second.print {
                let key = first.key.clone()?;
                keys.push(key)?;
            }
            Ok(Place {
                old: at.old + 1,
                new: at.new + 1,
            })
        }
    }
}

/// The keys of all of these nodes.
fn push_keys(nodes: &[Node], keys: &mut Vec<Key>) -> Result<(), NoMemory>
    ensures { OnOk result (keys.new.items ≡ keys.old.items ++ keys_of nodes.now) }
{
    for node in nodes {
        let key = node.key.clone()?;
        keys.push(key)?;
    }
    Ok(())
}

/// The keys whose prints differ between a file's old nodes and its new ones, in key order.
pub fn changed_keys(alloc: Global, old: &[Node], new: &[Node]) -> Result<Vec<Key>, NoMemory>
    requires old { AreAscending (keys_of old.now) }
    requires new { AreAscending (keys_of new.now) }
    ensures changed { IfOk result (λ keys. (k : Key) → is_one keys.items k ≡ has_moved old.now new.now k) }
    ensures ascending { IfOk result (λ keys. AreAscending keys.items) }
{
    let mut keys = Vec::new(alloc);
    let mut at = Place { old: 0, new: 0 };
    while at.old < old.len() {
        at = step(old, new, at, &mut keys)?;
    }
    push_keys(&new[at.new..], &mut keys)?;
    Ok(keys)
}

/// A key has moved exactly where its prints aren't the same.
pub fn moved_tells_prints()
    ensures { MovedTellsPrints }
{}
