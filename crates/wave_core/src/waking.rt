//! Files that use a changed key become pending.

ghost use Rattle.std.specs.Prelude.{◌≡◌, List, ℕ, IfOk, OnOk};
ghost use Rattle.std.specs.BTreeMap.{is_at};
ghost use Rattle.dep_graph.specs.Arcs.{path_order, nodes_in, uses_key};
ghost use Rattle.wave_core.specs.Cores.{ArePending, AreWoken, is_among, uses_one};

use crate::stages::{Stage, copy_of, is_idle};
use dep_graph::Graph;
use dep_key::{Key, Name, NoMemory};
use std::collections::{BTreeMap, BTreeSet};

/// A file becomes pending, unless it was asked for before.
fn wake(
    stages: &mut BTreeMap<Name, Stage>,
    pending: &mut BTreeSet<Name>,
    file: &Name,
) -> Result<(), NoMemory>
    requires pending { ArePending stages.old.entries pending.old.keys }
    ensures woken { OnOk result (AreWoken stages.old.entries stages.new.entries (is_at (path_order file.now))) }
    ensures pending { OnOk result (ArePending stages.new.entries pending.new.keys) }
{
    if !is_idle(stages, file) {
        return Ok(());
    }
    let copy = copy_of(file)?;
    pending.insert(copy)?;
    let copy = copy_of(file)?;
    stages.insert(copy, Stage::Pending)?;
    Ok(())
}

/// These files become pending, unless they were asked for before.
fn wake_each(
    files: &BTreeSet<Name>,
    stages: &mut BTreeMap<Name, Stage>,
    pending: &mut BTreeSet<Name>,
) -> Result<(), NoMemory>
    requires pending { ArePending stages.old.entries pending.old.keys }
    ensures woken { OnOk result (AreWoken stages.old.entries stages.new.entries (is_among files.now.keys)) }
    ensures pending { OnOk result (ArePending stages.new.entries pending.new.keys) }
{
    for file in files {
        wake(stages, pending, file)?;
    }
    Ok(())
}

/// The files that use a key become pending, unless they were asked for before.
fn wake_users(
    graph: &Graph,
    key: &Key,
    stages: &mut BTreeMap<Name, Stage>,
    pending: &mut BTreeSet<Name>,
) -> Result<(), NoMemory>
    requires pending { ArePending stages.old.entries pending.old.keys }
    ensures woken { OnOk result (AreWoken stages.old.entries stages.new.entries (λ f. uses_key (nodes_in graph.now f) key.now)) }
    ensures pending { OnOk result (ArePending stages.new.entries pending.new.keys) }
{
    match graph.users(key) {
        Some(files) => {
            wake_each(files, stages, pending)?;
            Ok(())
        }
        None => Ok(()),
    }
}

/// The files that use one of the keys become pending, unless they were asked for before.
pub fn wake_all(
    graph: &Graph,
    keys: &BTreeSet<Key>,
    stages: &mut BTreeMap<Name, Stage>,
    pending: &mut BTreeSet<Name>,
) -> Result<(), NoMemory>
    requires pending { ArePending stages.old.entries pending.old.keys }
    ensures woken { OnOk result (AreWoken stages.old.entries stages.new.entries (uses_one graph.now keys.now.keys)) }
    ensures pending { OnOk result (ArePending stages.new.entries pending.new.keys) }
{
    for key in keys {
        wake_users(graph, key, stages, pending)?;
    }
    Ok(())
}

/// The files of the first wave become pending.
pub fn wake_first(
    files: &[Name],
    stages: &mut BTreeMap<Name, Stage>,
    pending: &mut BTreeSet<Name>,
) -> Result<(), NoMemory>
    requires pending { ArePending stages.old.entries pending.old.keys }
    ensures woken { OnOk result (AreWoken stages.old.entries stages.new.entries (is_among files.now)) }
    ensures pending { OnOk result (ArePending stages.new.entries pending.new.keys) }
{
    for file in files {
        wake(stages, pending, file)?;
    }
    Ok(())
}
