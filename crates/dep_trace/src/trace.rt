//! The keys that have moved in a build, and in which files.

ghost use Rattle.std.specs.Prelude.{◌≡◌, Bool, true, false, ◌&&◌, not, ℕ, List, Some, IfOk, OnOk, IfSome, IfNone};
ghost use Rattle.std.specs.List.{list_any};
ghost use Rattle.std.specs.BTreeMap.{is_at};
ghost use Rattle.dep_key.specs.declared.key.Key.{Key};
ghost use Rattle.dep_graph.specs.Moves.{is_one};
ghost use Rattle.dep_graph.specs.Arcs.{path_order, nodes_in, uses_key};
ghost use Rattle.wave_core.specs.Cores.{has_print};
ghost use Rattle.dep_trace.specs.Traces.{HaveMoved, IsTraced, TracesFollow, moved_beside};

use crate::noting::{Origin, note_keys, note_nodes};
use crate::tracing::find_uses;
use dep_graph::Graph;
use dep_key::{Key, Name, NoMemory, Node};
use std::alloc::Global;
use std::collections::{BTreeMap, BTreeSet};
use std::marker::Model;

/// The keys that have moved so far, and in which files.
///
/// Contracts see the files of each key.
#[derive(Drop)]
pub struct Trace {
    origins: BTreeMap<Key, Origin>,
}

impl Model for Trace {
    ghost use Rattle.dep_trace.specs.Traces.{Origins};

    ghost Value = { Origins };

    ghost view = { λ t. t.origins.entries };
}

impl Trace {
    /// The trace at the opening of a build over the recorded graph: the keys of the removed files have moved.
    pub fn start(alloc: Global, graph: &Graph, removed: &[Name]) -> Result<Trace, NoMemory>
        ensures { IfOk result (λ trace. (f : List ℕ) (k : Key) → moved_beside trace f k ≡ list_any (λ g. not (is_at (path_order g) f) && has_print (nodes_in graph.now g) k) removed.now) }
    {
        let mut origins = BTreeMap::new(alloc);
        for file in removed {
            note_removed(&mut origins, graph, file)?;
        }
        Ok(Trace { origins })
    }

    /// Notes that keys have moved in a file that is done. After want of memory some of them are noted.
    pub fn note(&mut self, file: &Name, keys: &[Key]) -> Result<(), NoMemory>
        ensures { OnOk result (HaveMoved self.old self.new file.now (is_one keys.now)) }
    {
        note_keys(&mut self.origins, keys, file)?;
        Ok(())
    }

    /// The least key that the file's recorded nodes use and that has moved in a file other than this one.
    pub fn traced_key(
        &self,
        alloc: Global,
        file: &Name,
        nodes: &[Node],
    ) -> Result<Option<Key>, NoMemory>
        ensures traced { IfOk result (λ traced. IfSome traced (λ key. IsTraced self.now file.now nodes.now key)) }
        ensures untraced { IfOk result (λ traced. IfNone traced ((k : Key) → uses_key (Some nodes.now) k && moved_beside self.now file.now k ≡ false)) }
    {
        let mut found = BTreeSet::new(alloc);
        find_uses(&self.origins, file, nodes, &mut found)?;
        let traced = found.pop_first();
        Ok(traced)
    }
}

/// The keys of a removed file have moved in it.
fn note_removed(
    origins: &mut BTreeMap<Key, Origin>,
    graph: &Graph,
    file: &Name,
) -> Result<(), NoMemory>
    ensures { OnOk result (HaveMoved origins.old.entries origins.new.entries file.now (has_print (nodes_in graph.now file.now))) }
{
    match graph.nodes(file) {
        Some(nodes) => {
            note_nodes(origins, nodes, file)?;
            Ok(())
        }
        None => Ok(()),
    }
}

/// A trace that is begun with the removed files, and in which each file that is finished is noted, tells the
/// causes of what is due.
pub fn traces_follow()
    ensures { TracesFollow }
{}
