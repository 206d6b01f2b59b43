//! Files are built in waves.

ghost use Rattle.std.specs.Prelude.{◌≡◌, ℕ, Bool, List, [], Some, map, set, IfOk, OnOk};
ghost use Rattle.std.specs.BTreeMap.{get};
ghost use Rattle.std.specs.Cmp.Lexicographic.{slice_cmp};
ghost use Rattle.std.specs.List.Sorted.{IsStrictlySortedBy};
ghost use Rattle.std.specs.Ordering.{nat_cmp};
ghost use Rattle.dep_graph.specs.Arcs.{nodes_in, path_order};
ghost use Rattle.dep_graph.specs.Moves.{node_reading};
ghost use Rattle.dep_key.specs.Digests.{digested};
ghost use Rattle.dep_key.specs.GraphOrder.{AreInOrder};
ghost use Rattle.swift_ast.specs.declared.declarations.FileTree.{FileTree};
ghost use Rattle.wave_build.specs.Built.{IsBuiltFrom, IsUnderWay, no_result};
ghost use Rattle.wave_core.specs.Cores.{AreRemoved, Follows, Module, change_of, state_of};
ghost use Rattle.wave_coverage.specs.Modules.{recorded_at};
ghost use Rattle.waves.specs.Machine.{IsFinish};

use crate::built::BuiltFiles;
use crate::ending::ended;
use crate::naming::{names, names_at, numbers};
use decl_index::Index;
use decl_meaning::{Meanings, settle};
use dep_key::{FileGraph, FileNo, Name, NoMemory, Path, digested};
use module_compile::{CompiledFile, compile_file};
use std::alloc::Global;
use std::collections::BTreeMap;
use swift_ast::FileTree;
use wave_core::{Core, Graph};

/// Nothing for each file.
fn no_results(alloc: Global, trees: &[FileTree]) -> Result<Vec<Option<CompiledFile>>, NoMemory>
    ensures { IfOk result (λ files. files.items ≡ map no_result trees.now) }
{
    let mut files = Vec::new(alloc);
    for tree in trees {
        files.push(None)?;
    }
    Ok(files)
}

/// Puts what a file came to at its place.
fn keep(
    files: &mut Vec<Option<CompiledFile>>,
    place: usize,
    made: CompiledFile,
) -> Result<(), NoMemory>
    ensures { OnOk result (files.new.items ≡ set files.old.items place (Some made)) }
{
    match files.get_mut(place) {
        Some(file) => {
            *file = Some(made);
            Ok(())
        }
        None => Err(NoMemory),
    }
}

/// A graph as priors record it.
fn recorded_graph(alloc: Global, graph: &FileGraph) -> Result<FileGraph, NoMemory>
    requires ordered { AreInOrder graph.now.nodes }
    ensures graph { IfOk result (λ made. made ≡ digested graph.now) }
    ensures ordered { IfOk result (λ made. AreInOrder made.nodes) }
{
    let made = digested(alloc, graph)?;
    Ok(made)
}

/// A running file is done and has this graph.
///
/// An error says that memory was wanted and not there, or that the file isn't running.
fn finish(alloc: Global, core: &mut Core, graph: FileGraph) -> Result<(), NoMemory>
    requires ordered { AreInOrder graph.nodes }
    ensures finished { OnOk result (IsFinish node_reading graph.path (Some graph.nodes) (state_of core.old) (state_of core.new)) }
    ensures follows { OnOk result ((before now : Module) (first : List ℕ → Bool) → now graph.path ≡ Some graph.nodes → Follows (change_of before now first) core.old → Follows (change_of before now first) core.new) }
{
    match core.finish(alloc, graph) {
        Ok(_moved) => Ok(()),
        Err(_fault) => Err(NoMemory),
    }
}

/// Builds a running file.
fn build_file(
    alloc: Global,
    meanings: &Meanings<'_>,
    index: &Index,
    number: FileNo,
    core: &mut Core,
    files: &mut Vec<Option<CompiledFile>>,
) -> Result<(), NoMemory>
    requires meant { meanings.now ≡ index.now }
    requires ascending { IsStrictlySortedBy (slice_cmp nat_cmp) (map (λ (f : FileTree). f.path) index.now) }
    ensures built { OnOk result ((before : Module) (first : List ℕ → Bool) → IsUnderWay index.now before first core.old files.old.items → IsUnderWay index.now before first core.new files.new.items) }
{
    let made = compile_file(alloc, meanings, index, number)?;
    let graph = recorded_graph(alloc, &made.graph)?;
    finish(alloc, core, graph)?;
    keep(files, number as usize, made)?;
    Ok(())
}

/// The number of the file of a path. An error says that there is no such file.
fn number_of(numbers: &BTreeMap<Name, FileNo>, path: &Name) -> Result<FileNo, NoMemory>
    ensures { IfOk result (λ number. get path_order numbers.now path.now ≡ Some number) }
{
    match numbers.get(path) {
        Some(number) => Ok(*number),
        None => Err(NoMemory),
    }
}

/// Takes a pending file and builds it; `false` where none is pending.
fn build_next(
    alloc: Global,
    meanings: &Meanings<'_>,
    index: &Index,
    numbers: &BTreeMap<Name, FileNo>,
    core: &mut Core,
    files: &mut Vec<Option<CompiledFile>>,
) -> Result<bool, NoMemory>
    requires meant { meanings.now ≡ index.now }
    requires ascending { IsStrictlySortedBy (slice_cmp nat_cmp) (map (λ (f : FileTree). f.path) index.now) }
    ensures built { OnOk result ((before : Module) (first : List ℕ → Bool) → IsUnderWay index.now before first core.old files.old.items → IsUnderWay index.now before first core.new files.new.items) }
{
    match core.take(alloc)? {
        Some(path) => {
            let number = number_of(numbers, &path)?;
            build_file(alloc, meanings, index, number, core, files)?;
            Ok(true)
        }
        None => Ok(false),
    }
}

/// Builds pending files until there is none, or each file of the module has had its turn, and gives what they came to.
fn build_pending(
    alloc: Global,
    meanings: &Meanings<'_>,
    index: &Index,
    core: &mut Core,
) -> Result<Vec<Option<CompiledFile>>, NoMemory>
    requires meant { meanings.now ≡ index.now }
    requires ascending { IsStrictlySortedBy (slice_cmp nat_cmp) (map (λ (f : FileTree). f.path) index.now) }
    ensures built { IfOk result (λ files. (before : Module) (first : List ℕ → Bool) → core.old.3 ≡ [] → Follows (change_of before (recorded_at index.now) first) core.old → IsUnderWay index.now before first core.new files.items) }
{
    let trees = index.files();
    let numbers = numbers(alloc, trees)?;
    let mut files = no_results(alloc, trees)?;
    for _ in 0..trees.len() {
        if !build_next(alloc, meanings, index, &numbers, core, &mut files)? {
            break;
        }
    }
    Ok(files)
}

/// Builds the files of a module that are due, each once: the first ones, and each file that used a key which moved in a
/// file that was built or removed. The recorded graph has of each file what priors record, and the removed paths are those
/// of its files that the module hasn't any more.
///
/// An error says that memory was wanted and not there, or that the module has no file of one of the numbers.
pub fn build_files(
    alloc: Global,
    index: &Index,
    recorded: Graph,
    first: &[FileNo],
    removed: &[Path],
) -> Result<BuiltFiles, NoMemory>
    requires ascending { IsStrictlySortedBy (slice_cmp nat_cmp) (map (λ (f : FileTree). f.path) index.now) }
    ensures built { IfOk result (λ built. (was : List FileTree) → ((path : List ℕ) → nodes_in recorded path ≡ recorded_at was path) → AreRemoved (recorded_at was) (recorded_at index.now) removed.now → IsBuiltFrom was index.now first.now built) }
{
    let removed = names(alloc, removed)?;
    let first = names_at(alloc, index.files(), first)?;
    let mut core = Core::start(alloc, recorded, removed.as_slice(), first.as_slice())?;
    let meanings = settle(alloc, index)?;
    let files = build_pending(alloc, &meanings, index, &mut core)?;
    let built = ended(alloc, index, &core, files)?;
    Ok(built)
}
