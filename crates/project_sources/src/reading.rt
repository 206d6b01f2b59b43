//! The list of sources, and then their trees.

ghost use Rattle.std.specs.Prelude.{◌≡◌, ◌⊎◌, IfOk, IfErr, IfSome, OnOk};
ghost use Rattle.drv_outside.specs.Faults.{CountRose};
ghost use Rattle.drv_outside.specs.Reads.{OnlyReads};
ghost use Rattle.project_sources.specs.Calls.{ReadsPass};
ghost use Rattle.project_sources.specs.Parsed.{entry_paths};
ghost use Rattle.project_sources.specs.Reading.{AreOfFiles, AreReadAs, IsListed, ListsPlainPaths, StandAt};

use crate::listing::{listing_errors, too_large_errors};
use crate::sources::{Files, Sorted, read_files, sort_out};
use diag_text::Diag;
use drv_outside::{Entry, NoMemory, Status, Tree as Outside};
use frontend::Parsed;
use std::alloc::Global;
use swift_ast::FileTree;

/// The list of a project's sources, once it was read.
#[derive(Drop)]
pub enum Listing {
    /// The errors of the list: it has too many sources, or paths that aren't plain.
    Refused(Vec<Diag>),

    /// Each source, by path.
    Listed(Vec<Entry>),
}

/// The sources of a project, once they were read.
#[derive(Drop)]
pub enum Sources {
    /// The error of sources that hold too many bytes, or those of the files without a tree.
    Refused(Vec<Diag>),

    /// The tree of each, by path.
    Trees(Vec<FileTree>),
}

/// Lists the sources.
pub fn list_sources<T: Outside>(alloc: Global, tree: &mut T) -> Result<Listing, Status>
    ensures listing { IfOk result (λ listing. IfSome (T.observed tree.old) (λ t. IsListed t.sources listing)) }
    ensures plain { IfOk result ListsPlainPaths }
    ensures passed { OnOk result (ReadsPass (T.observed tree.old) (T.observed tree.new)) }
    ensures reads { OnlyReads (T.observed tree.old) (T.observed tree.new) }
    ensures ok_count { OnOk result (T.faults tree.new ≡ T.faults tree.old) }
    ensures no_memory_count { IfErr result (λ status. status ≡ Status.NoMemory → T.faults tree.new ≡ T.faults tree.old) }
    ensures tree_fault { IfErr result (λ status. status ≡ Status.TreeFault → CountRose (T.faults tree.old) (T.faults tree.new)) }
    ensures ends { IfErr result (λ status. (status ≡ Status.TreeFault) ⊎ (status ≡ Status.NoMemory)) }
{
    let entries = tree.list(alloc)?;
    let errors = listing_errors(alloc, &entries)?;
    if errors.is_empty() {
        Ok(Listing::Listed(entries))
    } else {
        Ok(Listing::Refused(errors))
    }
}

// What files are: the errors of those without a tree, or the trees of all.
fn sources_of(alloc: Global, files: Vec<Parsed>) -> Result<Sources, NoMemory>
    ensures { IfOk result (λ sources. AreOfFiles files.items sources) }
{
    let Sorted { errors, trees } = sort_out(alloc, files)?;
    if errors.is_empty() {
        Ok(Sources::Trees(trees))
    } else {
        Ok(Sources::Refused(errors))
    }
}

/// Reads the listed sources and their trees.
pub fn read_sources<T: Outside>(
    alloc: Global,
    tree: &mut T,
    entries: &[Entry],
) -> Result<Sources, Status>
    ensures sources { IfOk result (λ sources. IfSome (T.observed tree.old) (λ t. AreReadAs t.sources (entry_paths entries.now) sources)) }
    ensures paths { IfOk result (StandAt (entry_paths entries.now)) }
    ensures passed { OnOk result (ReadsPass (T.observed tree.old) (T.observed tree.new)) }
    ensures reads { OnlyReads (T.observed tree.old) (T.observed tree.new) }
    ensures ok_count { OnOk result (T.faults tree.new ≡ T.faults tree.old) }
    ensures no_memory_count { IfErr result (λ status. status ≡ Status.NoMemory → T.faults tree.new ≡ T.faults tree.old) }
    ensures tree_fault { IfErr result (λ status. status ≡ Status.TreeFault → CountRose (T.faults tree.old) (T.faults tree.new)) }
    ensures ends { IfErr result (λ status. (status ≡ Status.TreeFault) ⊎ (status ≡ Status.NoMemory)) }
{
    match read_files(alloc, tree, entries)? {
        Files::TooLarge => {
            let errors = too_large_errors(alloc)?;
            Ok(Sources::Refused(errors))
        }
        Files::Parsed(files) => {
            let sources = sources_of(alloc, files)?;
            Ok(sources)
        }
    }
}
