ghost use Rattle.std.specs.Prelude.{◌≡◌, ◌⊎◌, ℕ, List, Ok, IsTrue, IfOk, IfErr, IfSome, OnOk};
ghost use Rattle.drv_outside.specs.Faults.{CountRose};
ghost use Rattle.drv_outside.specs.IfObserved.{IfObserved};
ghost use Rattle.drv_outside.specs.Reads.{OnlyReads};
ghost use Rattle.output_names.specs.ModuleNames.{is_module_name};
ghost use Rattle.project_sources.specs.Calls.{ReadsPass};
ghost use Rattle.project_sources.specs.Reading.{IsListed, ListsPlainPaths};
ghost use Rattle.project_sources.specs.declared.reading.Listing.TheVariants as listing;
ghost use Rattle.driver_cmd.specs.Clean.{LeavesCleanBuild};
ghost use Rattle.driver_cmd.specs.Command.{request_of};
ghost use Rattle.driver_cmd.specs.Driven.{Driven, outside};
ghost use Rattle.driver_cmd.specs.Printed.{Printed};
ghost use Rattle.driver_cmd.specs.Projects.{AreInOrder, Builds, IsInOrder, IsReadFrom, StopsBuilding};
ghost use Rattle.driver_cmd.specs.Trusted.{StaysTrusted};

use diag_text::{Diag, lines};
use driver_build::{Made, make_outputs, replace_folder};
use drv_outside::{Entry, Sink, Status, Tree};
use project_sources::{Listing, Sources, list_sources, read_sources};
use std::alloc::Global;
use swift_ast::FileTree;

/// What was read of a project.
#[derive(Drop)]
enum Project {
    /// The errors of its list of sources, or of its files without a tree.
    Refused(Vec<Diag>),

    /// Its sources and their trees, by path.
    Read(Vec<Entry>, Vec<FileTree>),
}

// Reads the listed sources.
fn read_listed<T: Tree>(alloc: Global, tree: &mut T, entries: Vec<Entry>) -> Result<Project, Status>
    requires plain { ListsPlainPaths (listing.Listed entries) }
    ensures project { IfOk result (λ project. IfSome (T.observed tree.old) (λ t. IsListed t.sources (listing.Listed entries) → IsReadFrom t.sources project)) }
    ensures ordered { IfOk result IsInOrder }
    ensures passed { OnOk result (ReadsPass (T.observed tree.old) (T.observed tree.new)) }
    ensures reads { OnlyReads (T.observed tree.old) (T.observed tree.new) }
    ensures ok_count { OnOk result (T.faults tree.new ≡ T.faults tree.old) }
    ensures no_memory_count { IfErr result (λ status. status ≡ Status.NoMemory → T.faults tree.new ≡ T.faults tree.old) }
    ensures tree_fault { IfErr result (λ status. status ≡ Status.TreeFault → CountRose (T.faults tree.old) (T.faults tree.new)) }
    ensures ends { IfErr result (λ status. (status ≡ Status.TreeFault) ⊎ (status ≡ Status.NoMemory)) }
{
    match read_sources(alloc, tree, &entries)? {
        Sources::Refused(errors) => Ok(Project::Refused(errors)),
        Sources::Trees(trees) => Ok(Project::Read(entries, trees)),
    }
}

// Reads the sources, as far as there are no errors in their list.
fn read_project<T: Tree>(alloc: Global, tree: &mut T) -> Result<Project, Status>
    ensures project { IfOk result (λ project. IfSome (T.observed tree.old) (λ t. IsReadFrom t.sources project)) }
    ensures ordered { IfOk result IsInOrder }
    ensures passed { OnOk result (ReadsPass (T.observed tree.old) (T.observed tree.new)) }
    ensures reads { OnlyReads (T.observed tree.old) (T.observed tree.new) }
    ensures ok_count { OnOk result (T.faults tree.new ≡ T.faults tree.old) }
    ensures no_memory_count { IfErr result (λ status. status ≡ Status.NoMemory → T.faults tree.new ≡ T.faults tree.old) }
    ensures tree_fault { IfErr result (λ status. status ≡ Status.TreeFault → CountRose (T.faults tree.old) (T.faults tree.new)) }
    ensures ends { IfErr result (λ status. (status ≡ Status.TreeFault) ⊎ (status ≡ Status.NoMemory)) }
{
    match list_sources(alloc, tree)? {
        Listing::Refused(errors) => Ok(Project::Refused(errors)),
        Listing::Listed(entries) => read_listed(alloc, tree, entries),
    }
}

// Puts the outputs of a module in the place of what stands in the build folder, and answers with its error lines.
fn build_module<T: Tree>(
    alloc: Global,
    tree: &mut T,
    name: &str,
    entries: Vec<Entry>,
    trees: Vec<FileTree>,
) -> Result<Vec<u8>, Status>
    requires name { IsTrue (is_module_name name.now) }
    requires ordered { AreInOrder entries.items trees.items }
    ensures builds { IfOk result (λ lines. Builds name.now entries.items trees.items lines.items (T.observed tree.old) (T.observed tree.new)) }
    ensures stops { IfErr result (λ status. status ≡ Status.TreeFault → StopsBuilding name.now entries.items trees.items (T.observed tree.old) (T.observed tree.new)) }
    ensures early { IfErr result (λ status. status ≡ Status.NoMemory → OnlyReads (T.observed tree.old) (T.observed tree.new)) }
    ensures ok_count { OnOk result (T.faults tree.new ≡ T.faults tree.old) }
    ensures no_memory_count { IfErr result (λ status. status ≡ Status.NoMemory → T.faults tree.new ≡ T.faults tree.old) }
    ensures tree_fault { IfErr result (λ status. status ≡ Status.TreeFault → CountRose (T.faults tree.old) (T.faults tree.new)) }
    ensures ends { IfErr result (λ status. (status ≡ Status.TreeFault) ⊎ (status ≡ Status.NoMemory)) }
{
    let Made {
        names,
        files,
        lines,
    } = make_outputs(alloc, name, entries, trees)?;
    match replace_folder(alloc, tree, &names, &files) {
        Ok(()) => Ok(lines),
        Err(status) => Err(status),
    }
}

// Leaves the clean build of the sources in the build folder, and answers with its error lines.
fn build_project<T: Tree>(alloc: Global, tree: &mut T, name: &str) -> Result<Vec<u8>, Status>
    requires name { IsTrue (is_module_name name.now) }
    ensures clean { IfOk result (λ lines. IfObserved (T.observed tree.old) (T.observed tree.new) (LeavesCleanBuild name.now lines.items (T.observed tree.old) (T.observed tree.new))) }
    ensures trusted { StaysTrusted name.now (T.observed tree.old) (T.observed tree.new) }
    ensures early { IfErr result (λ status. status ≡ Status.NoMemory → OnlyReads (T.observed tree.old) (T.observed tree.new)) }
    ensures ok_count { OnOk result (T.faults tree.new ≡ T.faults tree.old) }
    ensures no_memory_count { IfErr result (λ status. status ≡ Status.NoMemory → T.faults tree.new ≡ T.faults tree.old) }
    ensures tree_fault { IfErr result (λ status. status ≡ Status.TreeFault → CountRose (T.faults tree.old) (T.faults tree.new)) }
    ensures ends { IfErr result (λ status. (status ≡ Status.TreeFault) ⊎ (status ≡ Status.NoMemory)) }
{
    match read_project(alloc, tree)? {
        Project::Refused(errors) => {
            let printed = lines(alloc, &errors)?;
            Ok(printed.into_vec())
        }
        Project::Read(entries, trees) => build_module(alloc, tree, name, entries, trees),
    }
}

// Prints error lines, where there are any, and answers how the build ends.
fn print<K: Sink>(lines: &[u8], out: &mut K) -> Status
    ensures { Printed lines.now (K.contents out.old) (K.contents out.new) (K.faults out.old) (K.faults out.new) result }
{
    if lines.is_empty() {
        return Status::Done;
    }
    match out.put(lines) {
        Ok(()) => Status::Errors,
        Err(_) => Status::SinkFault,
    }
}

/// Builds a module from the sources of a tree, and prints its error lines.
pub fn build<T: Tree, K: Sink>(alloc: Global, name: &str, tree: &mut T, out: &mut K) -> Status
    requires name { IsTrue (is_module_name name.now) }
    // What is promised of a call whose words ask for this module.
    ensures { (words : List (List ℕ)) → request_of words ≡ Ok name.now
        → Driven words (outside (T.observed tree.old) (T.faults tree.old) (K.contents out.old) (K.faults out.old))
        (outside (T.observed tree.new) (T.faults tree.new) (K.contents out.new) (K.faults out.new)) result }
{
    match build_project(alloc, tree, name) {
        Ok(lines) => print(&lines, out),
        Err(status) => status,
    }
}
