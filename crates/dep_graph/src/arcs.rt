//! Arcs enter and leave the index, key by key.

ghost use Rattle.std.specs.Prelude.{◌≡◌, Some, IfOk, OnOk};
ghost use Rattle.std.specs.Ordering.{is_eq};
ghost use Rattle.dep_key.specs.KeyOrder.{key_order};
ghost use Rattle.dep_graph.specs.Moves.{is_one};
ghost use Rattle.dep_graph.specs.Arcs.{HasEntered, HasLeft, uses_key};

use dep_key::{Key, Name, NoMemory, Node};
use std::alloc::Global;
use std::collections::{BTreeMap, BTreeSet};

/// A copy of a path, which shares its characters.
fn copy_of(path: &Name) -> Result<Name, NoMemory>
    ensures { IfOk result (λ copy. copy ≡ path.now) }
{
    let copy = path.clone()?;
    Ok(copy)
}

/// The file becomes a user of a key.
fn enter(
    alloc: Global,
    users: &mut BTreeMap<Key, BTreeSet<Name>>,
    key: &Key,
    file: &Name,
) -> Result<(), NoMemory>
    ensures { OnOk result (HasEntered users.old users.new file.now (λ k. is_eq (key_order k key.now))) }
{
    let mut known = match users.remove(key) {
        Some(known) => known,
        None => BTreeSet::new(alloc),
    };
    let copy = copy_of(file)?;
    known.insert(copy)?;
    let used = key.clone()?;
    users.insert(used, known)?;
    Ok(())
}

/// The file becomes a user of each of the keys.
fn enter_keys(
    alloc: Global,
    users: &mut BTreeMap<Key, BTreeSet<Name>>,
    keys: &[Key],
    file: &Name,
) -> Result<(), NoMemory>
    ensures { OnOk result (HasEntered users.old users.new file.now (is_one keys.now)) }
{
    for key in keys {
        enter(alloc, users, key, file)?;
    }
    Ok(())
}

/// The file becomes a user of the keys that its nodes use.
pub fn enter_nodes(
    alloc: Global,
    users: &mut BTreeMap<Key, BTreeSet<Name>>,
    nodes: &[Node],
    file: &Name,
) -> Result<(), NoMemory>
    ensures { OnOk result (HasEntered users.old users.new file.now (uses_key (Some nodes.now))) }
{
    for node in nodes {
        enter_keys(alloc, users, node.uses.as_slice(), file)?;
    }
    Ok(())
}

/// The file is no user of a key any more.
fn leave(users: &mut BTreeMap<Key, BTreeSet<Name>>, key: &Key, file: &Name)
    ensures { HasLeft users.old users.new file.now (λ k. is_eq (key_order k key.now)) }
{
    if let Some(known) = users.get_mut(key) {
        known.remove(file);
    }
}

/// The file is no user of any of the keys any more.
fn leave_keys(users: &mut BTreeMap<Key, BTreeSet<Name>>, keys: &[Key], file: &Name)
    ensures { HasLeft users.old users.new file.now (is_one keys.now) }
{
    for key in keys {
        leave(users, key, file);
    }
}

/// The file is no user any more of the keys that its nodes used.
pub fn leave_nodes(users: &mut BTreeMap<Key, BTreeSet<Name>>, nodes: &[Node], file: &Name)
    ensures { HasLeft users.old users.new file.now (uses_key (Some nodes.now)) }
{
    for node in nodes {
        leave_keys(users, node.uses.as_slice(), file);
    }
}
