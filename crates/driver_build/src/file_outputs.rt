//! The outputs of compiled files.

ghost use Rattle.std.specs.Prelude.{◌≡◌, length, IfOk};
ghost use Rattle.driver_build.specs.Outputs.{AreTextOutputs, AreOutcomeOutputs, AreFileOutputs, AreOutputsOfFiles, IsDependencyFile, file_named};

use crate::FileResult;
use dep_key::{FileGraph, Name, NoMemory, Text};
use disk_commit::File;
use file_map::FileNames;
use module_compile::{CompiledFile, FileTexts, Outcome};
use std::alloc::Global;
use swiftdeps::{encode, is_writable};

/// A file of the build folder.
pub fn file_named(name: &Name, bytes: Text) -> Result<File, NoMemory>
    ensures { IfOk result (λ file. file ≡ file_named name.now bytes) }
{
    let name = name.clone()?;
    Ok(File { name, bytes })
}

/// The dependency file of a file with this graph. A graph that has no spelling ends as want of memory does.
fn dependency_file(alloc: Global, name: &Name, graph: &FileGraph) -> Result<File, NoMemory>
    ensures { IfOk result (λ file. IsDependencyFile name.now graph.now file) }
{
    if !is_writable(graph) {
        return Err(NoMemory);
    }
    let bytes = encode(alloc, graph)?;
    let file = file_named(name, bytes)?;
    Ok(file)
}

/// The outputs of a file with these texts and this graph.
fn text_outputs(
    alloc: Global,
    names: &FileNames,
    graph: &FileGraph,
    texts: FileTexts,
) -> Result<Vec<File>, NoMemory>
    ensures { IfOk result (λ made. AreTextOutputs names.now graph.now texts made.items) }
{
    let FileTexts { object, partial } = texts;
    let mut made = Vec::new(alloc);
    made.push(file_named(&names.object, object)?)?;
    made.push(file_named(&names.partial, partial)?)?;
    made.push(dependency_file(alloc, &names.deps, graph)?)?;
    Ok(made)
}

/// The outputs of a compiled file.
fn compiled_outputs(
    alloc: Global,
    names: &FileNames,
    compiled: CompiledFile,
) -> Result<Vec<File>, NoMemory>
    ensures { IfOk result (λ made. AreOutcomeOutputs names.now compiled.graph compiled.outcome made.items) }
{
    let CompiledFile { outcome, graph } = compiled;
    match outcome {
        Outcome::Texts(texts) => text_outputs(alloc, names, &graph, texts),
        Outcome::Errors(_) => Ok(Vec::new(alloc)),
    }
}

/// The outputs of a file.
fn file_outputs(alloc: Global, names: &FileNames, file: FileResult) -> Result<Vec<File>, NoMemory>
    ensures { IfOk result (λ made. AreFileOutputs names.now file made.items) }
{
    match file {
        FileResult::Compiled(compiled) => compiled_outputs(alloc, names, compiled),
        FileResult::Kept(_) => Ok(Vec::new(alloc)),
    }
}

/// The outputs of files with these names, in order.
pub fn outputs_of_files(
    alloc: Global,
    names: &[FileNames],
    files: Vec<FileResult>,
) -> Result<Vec<File>, NoMemory>
    requires each { length files.items ≡ length names.now }
    ensures { IfOk result (λ made. AreOutputsOfFiles names.now files.items made.items) }
{
    let mut made = Vec::new(alloc);
    let mut place = 0usize;
    for file in files {
        let mut own = file_outputs(alloc, &names[place], file)?;
        made.append(&mut own)?;
        place += 1;
    }
    Ok(made)
}
