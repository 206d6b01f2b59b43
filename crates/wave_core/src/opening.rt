//! The graph without the files that were removed, and the keys that this changes.

ghost use Rattle.std.specs.Prelude.{◌≡◌, ℕ, List, cond, None, IfOk};
ghost use Rattle.std.specs.List.{list_any};
ghost use Rattle.dep_key.specs.declared.key.Key.{Key};
ghost use Rattle.dep_graph.specs.Moves.{is_one};
ghost use Rattle.dep_graph.specs.Arcs.{nodes_in};
ghost use Rattle.wave_core.specs.Cores.{is_among, has_print};

use crate::joining::join;
use dep_graph::Graph;
use dep_key::{Key, Name, NoMemory};
use std::alloc::Global;
use std::collections::BTreeSet;

/// Takes files out of a graph, and gives the keys that they had.
pub fn without(
    alloc: Global,
    graph: Graph,
    removed: &[Name],
) -> Result<(Graph, BTreeSet<Key>), NoMemory>
    ensures graph { IfOk result (λ made. (f : List ℕ) → nodes_in made.0 f ≡ cond (is_among removed.now f) None (nodes_in graph f)) }
    ensures changed { IfOk result (λ made. (k : Key) → is_one made.1.keys k ≡ list_any (λ f. has_print (nodes_in graph f) k) removed.now) }
{
    let mut rest = graph;
    let mut changed = BTreeSet::new(alloc);
    for file in removed {
        let keys = rest.drop_file(alloc, file)?;
        join(alloc, &mut changed, &keys)?;
    }
    Ok((rest, changed))
}
