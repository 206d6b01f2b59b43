//! Keys move in files.

ghost use Rattle.std.specs.Prelude.{◌≡◌, ◌||◌, not, ℕ, List, Some, IfOk, OnOk};
ghost use Rattle.std.specs.Ordering.{is_eq};
ghost use Rattle.std.specs.BTreeMap.{is_at};
ghost use Rattle.dep_key.specs.KeyOrder.{key_order};
ghost use Rattle.dep_graph.specs.Moves.{is_one};
ghost use Rattle.dep_graph.specs.Arcs.{path_order};
ghost use Rattle.dep_trace.specs.Traces.{HaveMoved, has_other, is_named};

use dep_key::{Key, Name, NoMemory, Node};
use std::collections::BTreeMap;

/// In which files a key has moved.
#[derive(Debug, Drop)]
pub enum Origin {
    /// In this file alone.
    One(Name),
    /// In two files or more.
    Several,
}

/// A copy of a path, which shares its characters.
fn copy_of(path: &Name) -> Result<Name, NoMemory>
    ensures { IfOk result (λ copy. copy ≡ path.now) }
{
    let copy = path.clone()?;
    Ok(copy)
}

/// In which files a key has moved that has moved in one file more.
fn joined(known: Option<Origin>, file: &Name) -> Result<Origin, NoMemory>
    ensures { IfOk result (λ origin. (f : List ℕ) → has_other (Some origin) f ≡ (has_other known f || not (is_at (path_order file.now) f))) }
{
    match known {
        Some(Origin::Several) => Ok(Origin::Several),
        Some(Origin::One(other)) => {
            if other.cmp(file).is_eq() {
                Ok(Origin::One(other))
            } else {
                Ok(Origin::Several)
            }
        }
        None => {
            let copy = copy_of(file)?;
            Ok(Origin::One(copy))
        }
    }
}

/// A key has moved in a file.
fn note_key(origins: &mut BTreeMap<Key, Origin>, key: &Key, file: &Name) -> Result<(), NoMemory>
    ensures { OnOk result (HaveMoved origins.old.entries origins.new.entries file.now (λ k. is_eq (key_order k key.now))) }
{
    let origin = joined(origins.remove(key), file)?;
    let copy = key.clone()?;
    origins.insert(copy, origin)?;
    Ok(())
}

/// Keys have moved in a file.
pub fn note_keys(
    origins: &mut BTreeMap<Key, Origin>,
    keys: &[Key],
    file: &Name,
) -> Result<(), NoMemory>
    ensures { OnOk result (HaveMoved origins.old.entries origins.new.entries file.now (is_one keys.now)) }
{
    for key in keys {
        note_key(origins, key, file)?;
    }
    Ok(())
}

/// The keys of a file's nodes have moved in it.
pub fn note_nodes(
    origins: &mut BTreeMap<Key, Origin>,
    nodes: &[Node],
    file: &Name,
) -> Result<(), NoMemory>
    ensures { OnOk result (HaveMoved origins.old.entries origins.new.entries file.now (is_named nodes.now)) }
{
    for node in nodes {
        note_key(origins, &node.key, file)?;
    }
    Ok(())
}
