//! The sources of a project and their trees.

ghost use Rattle.std.specs.Prelude.{◌≡◌, ◌⊎◌, take, length, IfOk, IfErr, IfSome, OnOk};
ghost use Rattle.drv_outside.specs.Faults.{CountRose};
ghost use Rattle.drv_outside.specs.Reads.{OnlyReads};
ghost use Rattle.drv_outside.specs.TreeState.{bytes_at};
ghost use Rattle.frontend.specs.Parsing.{IsParsed, parsed_path};
ghost use Rattle.project_sources.specs.Calls.{ReadsPass};
ghost use Rattle.project_sources.specs.Refusals.{form_errors, trees_of};
ghost use Rattle.project_sources.specs.Parsed.{entry_paths};
ghost use Rattle.project_sources.specs.Reading.{AreRead, HavePaths};

use crate::listing::MOST_SOURCE_BYTES;
use diag_text::Diag;
use drv_outside::{Entry, NoMemory, Path, Status, Tree as Sources};
use frontend::{Parsed, parse};
use std::alloc::Global;
use swift_ast::FileTree;
use swift_token::MAX_FILE_BYTES;

/// One byte more than a source file may have, so that a longer one shows.
pub const MOST_READ: usize = MAX_FILE_BYTES + 1;

/// The files of a listing, once they were read.
#[derive(Drop)]
pub enum Files {
    /// They hold more than `MOST_SOURCE_BYTES` bytes.
    TooLarge,

    /// Each file, in order.
    Parsed(Vec<Parsed>),
}

/// The files with a tree and those without.
#[derive(Drop)]
pub struct Sorted {
    /// The errors of the files without a tree, in order.
    pub errors: Vec<Diag>,

    /// The trees of the other files, in order.
    pub trees: Vec<FileTree>,
}

/// A source file, and how many of its bytes were read.
#[derive(Drop)]
struct Read {
    file: Parsed,
    bytes: usize,
}

// Reads one source and its tree.
fn read_file<T: Sources>(alloc: Global, tree: &mut T, path: &Path) -> Result<Read, Status>
    ensures file { IfOk result (λ read. IfSome (T.observed tree.old) (λ t. IsParsed path.now (bytes_at path.now t.sources) read.file)) }
    ensures bytes { IfOk result (λ read. IfSome (T.observed tree.old) (λ t. read.bytes ≡ length (take MOST_READ (bytes_at path.now t.sources)))) }
    ensures path { IfOk result (λ read. parsed_path read.file ≡ path.now) }
    ensures passed { OnOk result (ReadsPass (T.observed tree.old) (T.observed tree.new)) }
    ensures reads { OnlyReads (T.observed tree.old) (T.observed tree.new) }
    ensures ok_count { OnOk result (T.faults tree.new ≡ T.faults tree.old) }
    ensures no_memory_count { IfErr result (λ status. status ≡ Status.NoMemory → T.faults tree.new ≡ T.faults tree.old) }
    ensures tree_fault { IfErr result (λ status. status ≡ Status.TreeFault → CountRose (T.faults tree.old) (T.faults tree.new)) }
    ensures ends { IfErr result (λ status. (status ≡ Status.TreeFault) ⊎ (status ≡ Status.NoMemory)) }
{
    let text = tree.read_source(alloc, path.as_str(), MOST_READ)?;
    let path = Path::from_str(alloc, path.as_str())?;
    let file = parse(alloc, path, text.as_slice())?;
    let bytes = text.as_slice().len();
    Ok(Read { file, bytes })
}

/// Reads the sources of a listing and their trees, in order, as long as they hold no more bytes than sources may.
pub fn read_files<T: Sources>(
    alloc: Global,
    tree: &mut T,
    entries: &[Entry],
) -> Result<Files, Status>
    ensures files { IfOk result (λ files. IfSome (T.observed tree.old) (λ t. AreRead t.sources (entry_paths entries.now) files)) }
    ensures paths { IfOk result (λ files. HavePaths (entry_paths entries.now) files) }
    ensures passed { OnOk result (ReadsPass (T.observed tree.old) (T.observed tree.new)) }
    ensures reads { OnlyReads (T.observed tree.old) (T.observed tree.new) }
    ensures ok_count { OnOk result (T.faults tree.new ≡ T.faults tree.old) }
    ensures no_memory_count { IfErr result (λ status. status ≡ Status.NoMemory → T.faults tree.new ≡ T.faults tree.old) }
    ensures tree_fault { IfErr result (λ status. status ≡ Status.TreeFault → CountRose (T.faults tree.old) (T.faults tree.new)) }
    ensures ends { IfErr result (λ status. (status ≡ Status.TreeFault) ⊎ (status ≡ Status.NoMemory)) }
{
    let mut files = Vec::new(alloc);
    let mut bytes = 0usize;
    for entry in entries {
        let read = read_file(alloc, tree, &entry.path)?;
        if read.bytes > MOST_SOURCE_BYTES - bytes {
            return Ok(Files::TooLarge);
        }
        bytes += read.bytes;
        files.push(read.file)?;
    }
    Ok(Files::Parsed(files))
}

/// The errors of the files without a tree, and the trees of the others.
pub fn sort_out(alloc: Global, files: Vec<Parsed>) -> Result<Sorted, NoMemory>
    ensures errors { IfOk result (λ sorted. sorted.errors.items ≡ form_errors files.items) }
    ensures trees { IfOk result (λ sorted. sorted.trees.items ≡ trees_of files.items) }
{
    let mut errors = Vec::new(alloc);
    let mut trees = Vec::new(alloc);
    for file in files {
        match file {
            Parsed::Tree(tree) => trees.push(tree)?,
            Parsed::NoTree(error) => errors.push(error)?,
        }
    }
    Ok(Sorted { errors, trees })
}
