//! The keys from which a file may be traced.

ghost use Rattle.std.specs.Prelude.{◌≡◌, OnOk, Some};
ghost use Rattle.std.specs.Ordering.{is_eq};
ghost use Rattle.dep_key.specs.KeyOrder.{key_order};
ghost use Rattle.dep_graph.specs.Moves.{is_one};
ghost use Rattle.dep_graph.specs.Arcs.{uses_key};
ghost use Rattle.dep_trace.specs.Traces.{HaveBeenFound, moved_beside};

use crate::noting::Origin;
use dep_key::{Key, Name, NoMemory, Node};
use std::collections::{BTreeMap, BTreeSet};

/// Whether a key has moved in a file other than this one.
fn is_moved_beside(origins: &BTreeMap<Key, Origin>, file: &Name, key: &Key) -> bool
    ensures { result ≡ moved_beside origins.now.entries file.now key.now }
{
    match origins.get(key) {
        Some(Origin::Several) => true,
        Some(Origin::One(other)) => !other.cmp(file).is_eq(),
        None => false,
    }
}

/// Finds a key where it has moved beside the file.
fn find_key(
    origins: &BTreeMap<Key, Origin>,
    file: &Name,
    key: &Key,
    found: &mut BTreeSet<Key>,
) -> Result<(), NoMemory>
    ensures { OnOk result (HaveBeenFound found.old.keys found.new.keys (moved_beside origins.now.entries file.now) (λ k. is_eq (key_order k key.now))) }
{
    if !is_moved_beside(origins, file, key) {
        return Ok(());
    }
    let copy = key.clone()?;
    found.insert(copy)?;
    Ok(())
}

/// Finds those of the keys that have moved beside the file.
fn find_keys(
    origins: &BTreeMap<Key, Origin>,
    file: &Name,
    keys: &[Key],
    found: &mut BTreeSet<Key>,
) -> Result<(), NoMemory>
    ensures { OnOk result (HaveBeenFound found.old.keys found.new.keys (moved_beside origins.now.entries file.now) (is_one keys.now)) }
{
    for key in keys {
        find_key(origins, file, key, found)?;
    }
    Ok(())
}

/// Finds the keys that the nodes use and that have moved beside the file.
pub fn find_uses(
    origins: &BTreeMap<Key, Origin>,
    file: &Name,
    nodes: &[Node],
    found: &mut BTreeSet<Key>,
) -> Result<(), NoMemory>
    ensures { OnOk result (HaveBeenFound found.old.keys found.new.keys (moved_beside origins.now.entries file.now) (uses_key (Some nodes.now))) }
{
    for node in nodes {
        find_keys(origins, file, node.uses.as_slice(), found)?;
    }
    Ok(())
}
