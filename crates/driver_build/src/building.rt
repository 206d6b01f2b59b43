//! Modules that are compiled whole.

ghost use Rattle.std.specs.Prelude.{◌≡◌, ◌++◌, flat_map, All, IsTrue, IfOk, OnOk};
ghost use Rattle.diag_text.specs.Line.{lines_of};
ghost use Rattle.drv_outside.specs.Plain.{is_plain_path};
ghost use Rattle.drv_outside.specs.TreeState.{AscendByPath};
ghost use Rattle.output_names.specs.ModuleNames.{is_module_name};
ghost use Rattle.project_sources.specs.Parsed.{entry_paths};
ghost use Rattle.project_sources.specs.Reading.{tree_paths};
ghost use Rattle.driver_build.specs.Building.{AreMade, errors_in};

use crate::asking::asked_of;
use crate::outputs_of_build::outputs;
use crate::results::{all_compiled, digests_of};
use decl_index::Index;
use dep_key::NoMemory;
use diag_text::lines;
use disk_commit::File;
use drv_outside::Entry;
use file_map::Names;
use module_compile::{CompiledFile, Outcome, compile_module};
use std::alloc::Global;
use swift_ast::FileTree;

/// What a build makes before it writes.
#[derive(Drop)]
pub struct Made {
    pub names: Names,
    /// All outputs but the gate, in the order in which they are written.
    pub files: Vec<File>,
    /// The error lines.
    pub lines: Vec<u8>,
}

/// Puts the errors of a file behind the text so far.
fn push_errors(alloc: Global, text: &mut Vec<u8>, file: &CompiledFile) -> Result<(), NoMemory>
    ensures { OnOk result (text.new.items ≡ text.old.items ++ lines_of (errors_in file.now)) }
{
    if let Outcome::Errors(errors) = &file.outcome {
        let printed = lines(alloc, errors.as_slice())?;
        text.extend_from_slice(printed.as_slice())?;
    }
    Ok(())
}

/// The printed errors of compiled files, in their order.
fn error_lines(alloc: Global, files: &[CompiledFile]) -> Result<Vec<u8>, NoMemory>
    ensures { IfOk result (λ text. text.items ≡ lines_of (flat_map errors_in files.now)) }
{
    let mut text = Vec::new(alloc);
    for file in files {
        push_errors(alloc, &mut text, file)?;
    }
    Ok(text)
}

/// Compiles a module whole, and makes all that a build of it writes and prints.
///
/// `entries` are its sources by path, and `trees` their trees.
pub fn make_outputs(
    alloc: Global,
    name: &str,
    entries: Vec<Entry>,
    trees: Vec<FileTree>,
) -> Result<Made, NoMemory>
    requires name { IsTrue (is_module_name name.now) }
    requires plain { All (λ path. IsTrue (is_plain_path path)) (entry_paths entries.items) }
    requires ascending { AscendByPath entries.items }
    requires each { tree_paths trees.items ≡ entry_paths entries.items }
    ensures made { IfOk result (λ made. AreMade name.now entries.items trees.items made) }
{
    let asked = asked_of(alloc, name, entries)?;
    let index = Index::new(alloc, trees)?;
    let compiled = compile_module(alloc, &index)?;
    let lines = error_lines(alloc, &compiled)?;
    let graphs = digests_of(alloc, &compiled)?;
    let results = all_compiled(alloc, compiled)?;
    let files = outputs(alloc, &asked, name, results, &graphs)?;
    Ok(Made {
        names: asked.names,
        files,
        lines,
    })
}
