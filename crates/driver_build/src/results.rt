//! What a build has in hand of each file.

ghost use Rattle.std.specs.Prelude.{◌≡◌, map, IfOk};
ghost use Rattle.std.specs.List.{list_all};
ghost use Rattle.dep_key.specs.Digests.{digested};
ghost use Rattle.driver_build.specs.Results as spec;
ghost use Rattle.driver_build.specs.declared.results.FileResult.TheVariants as result_of;

use dep_key::{FileGraph, NoMemory, digested};
use module_compile::{CompiledFile, FileTexts, Outcome};
use std::alloc::Global;

/// What a build has in hand of a file.
#[derive(Debug, Drop)]
pub enum FileResult {
    /// It was compiled, and its outputs are written.
    Compiled(CompiledFile),

    /// It was skipped: these texts stand in the build folder. It has no errors.
    Kept(FileTexts),
}

/// Whether a file has no errors.
pub fn is_clean(file: &FileResult) -> bool
    ensures { result ≡ spec.is_clean file.now }
{
    match file {
        FileResult::Compiled(compiled) => match &compiled.outcome {
            Outcome::Texts(_) => true,
            Outcome::Errors(_) => false,
        },
        FileResult::Kept(_) => true,
    }
}

/// Whether no file has errors.
pub fn are_clean(files: &[FileResult]) -> bool
    ensures { result ≡ list_all spec.is_clean files.now }
{
    files.iter().all(|file| is_clean(file))
}

/// The results of files that were all compiled, in their order.
pub fn all_compiled(alloc: Global, files: Vec<CompiledFile>) -> Result<Vec<FileResult>, NoMemory>
    ensures { IfOk result (λ results. results.items ≡ map result_of.Compiled files.items) }
{
    let mut results = Vec::new(alloc);
    for file in files {
        results.push(FileResult::Compiled(file))?;
    }
    Ok(results)
}

/// The graphs of files, in their order, with a digest in place of each print: what priors record.
pub fn digests_of(alloc: Global, files: &[CompiledFile]) -> Result<Vec<FileGraph>, NoMemory>
    ensures { IfOk result (λ graphs. graphs.items ≡ map digested (spec.graphs_of files.now)) }
{
    let mut graphs = Vec::new(alloc);
    for file in files {
        graphs.push(digested(alloc, &file.graph)?)?;
    }
    Ok(graphs)
}
