//! The recorded graph, and the files that went.

ghost use Rattle.std.specs.Prelude.{◌≡◌, ℕ, List, IfOk};
ghost use Rattle.std.specs.BTreeSet.{contains};
ghost use Rattle.std.specs.List.{AllByRecursion};
ghost use Rattle.dep_graph.specs.Arcs.{path_order, nodes_in};
ghost use Rattle.dep_key.specs.declared.graph.FileGraph.{FileGraph};
ghost use Rattle.dep_key.specs.GraphOrder.{AreInOrder};
ghost use Rattle.wave_plan.specs.Plans.{nodes_of, removed_files};

use crate::named::copy_of_path;
use dep_graph::Graph;
use dep_key::{FileGraph, NoMemory, Path};
use std::alloc::Global;
use std::collections::BTreeSet;

/// The graph of these files.
pub fn graph_of(alloc: Global, mut files: Vec<FileGraph>) -> Result<Graph, NoMemory>
    requires { AllByRecursion (λ (file : FileGraph). AreInOrder file.nodes) files.items }
    ensures { IfOk result (λ graph. (path : List ℕ) → nodes_in graph path ≡ nodes_of files.items path) }
{
    let mut graph = Graph::new(alloc);
    // From the last on, so that of files with one path the first would count.
    while let Some(file) = files.pop() {
        graph.integrate(alloc, file)?;
    }
    Ok(graph)
}

/// The files of a graph that aren't among the listed ones, in order.
pub fn removed_files(
    alloc: Global,
    listed: &BTreeSet<Path>,
    files: &[FileGraph],
) -> Result<Vec<Path>, NoMemory>
    ensures { IfOk result (λ removed. removed.items ≡ removed_files (contains path_order listed.now) files.now) }
{
    let mut removed = Vec::new(alloc);
    for file in files {
        if !listed.contains(&file.path) {
            removed.push(copy_of_path(alloc, &file.path)?)?;
        }
    }
    Ok(removed)
}
