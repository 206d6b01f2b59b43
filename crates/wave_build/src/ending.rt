//! What is in hand at the end of a build.

ghost use Rattle.std.specs.Prelude.{◌≡◌, ℕ, List, map, IfOk};
ghost use Rattle.std.specs.Cmp.Lexicographic.{slice_cmp};
ghost use Rattle.std.specs.List.Sorted.{IsStrictlySortedBy};
ghost use Rattle.std.specs.Ordering.{nat_cmp};
ghost use Rattle.dep_graph.specs.Arcs.{nodes_in, nodes_or_none};
ghost use Rattle.swift_ast.specs.declared.declarations.FileTree.{FileTree};
ghost use Rattle.wave_build.specs.Built.{IsUnderWay, IsBuiltFrom, graph_at, paths_at};
ghost use Rattle.wave_core.specs.Cores.{is_among};
ghost use Rattle.wave_coverage.specs.Modules.{recorded_at};

use crate::built::BuiltFiles;
use crate::naming::name_of;
use decl_index::Index;
use dep_key::{FileGraph, Name, NoMemory, Nodes, Path};
use module_compile::CompiledFile;
use std::alloc::Global;
use swift_ast::FileTree;
use wave_core::{Core, Graph};

/// A copy of the nodes of a file, and none where the graph doesn't have it.
fn nodes_of(alloc: Global, graph: &Graph, path: &Name) -> Result<Nodes, NoMemory>
    ensures { IfOk result (λ nodes. nodes ≡ nodes_or_none (nodes_in graph.now path.now)) }
{
    match graph.nodes(path) {
        Some(nodes) => {
            let copy = nodes.to_vec(alloc)?;
            Ok(Nodes::from_vec(copy))
        }
        None => Ok(Nodes::from_vec(Vec::new(alloc))),
    }
}

/// A copy of the graph of a file as the core has it.
fn graph_at(alloc: Global, core: &Core, file: &FileTree) -> Result<FileGraph, NoMemory>
    ensures { IfOk result (λ graph. graph ≡ graph_at core.now file.now) }
{
    let name = name_of(alloc, file)?;
    let path = Path::from_str(alloc, file.path.as_str())?;
    let nodes = nodes_of(alloc, core.graph(), &name)?;
    Ok(FileGraph { path, nodes })
}

/// Copies of the graphs of files as the core has them.
fn graphs(alloc: Global, core: &Core, files: &[FileTree]) -> Result<Vec<FileGraph>, NoMemory>
    ensures { IfOk result (λ graphs. graphs.items ≡ map (graph_at core.now) files.now) }
{
    let mut graphs = Vec::new(alloc);
    for file in files {
        let graph = graph_at(alloc, core, file)?;
        graphs.push(graph)?;
    }
    Ok(graphs)
}

/// What is in hand of a build whose core is complete.
///
/// An error says that memory was wanted and not there, or that the core isn't complete.
pub fn ended(
    alloc: Global,
    index: &Index,
    core: &Core,
    files: Vec<Option<CompiledFile>>,
) -> Result<BuiltFiles, NoMemory>
    requires ascending { IsStrictlySortedBy (slice_cmp nat_cmp) (map (λ (f : FileTree). f.path) index.now) }
    ensures built { IfOk result (λ built. (was : List FileTree) (first : List ℕ) → IsUnderWay index.now (recorded_at was) (is_among (paths_at index.now first)) core.now files.items → IsBuiltFrom was index.now first built) }
{
    if core.is_complete() {
        let graphs = graphs(alloc, core, index.files())?;
        Ok(BuiltFiles { files, graphs })
    } else {
        Err(NoMemory)
    }
}
