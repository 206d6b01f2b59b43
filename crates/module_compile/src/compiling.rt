//! Files are checked, and their texts and graphs made.

ghost use Rattle.std.specs.Prelude.{◌≡◌, Some, map, All, IfOk};
ghost use Rattle.std.specs.List.{slice_get};
ghost use Rattle.std.specs.Option.{option_map};
ghost use Rattle.dep_key.specs.GraphOrder.{AreInOrder};
ghost use Rattle.iface_print.specs.Partials.{partial_text};
ghost use Rattle.object_emit.specs.Objects.{object_text};
ghost use Rattle.swift_ast.specs.declared.declarations.FileTree.{FileTree};
ghost use Rattle.module_compile.specs.Compiled as spec;
ghost use Rattle.module_compile.specs.declared.compiled.CompiledFile.{CompiledFile};

use crate::{CompiledFile, FileTexts, Outcome};
use decl_index::Index;
use decl_meaning::settle;
use dep_key::{FileNo, NoMemory, Path};
use diag_text::Diag;
use expr_check::Line;
use file_check::{CheckedFile, check_file};
use file_nodes::graph;
use iface_print::partial_text;
use object_emit::object;
use sqlite_items::{Items, at};
use std::alloc::Global;
use std::collections::BTreeSet;
use swift_ast::FileTree;
use type_rules::Answers;
use typed_code::Unit;

/// An error of a file.
fn error_in(path: &Path, line: Line) -> Result<Diag, NoMemory>
    ensures { IfOk result (λ error. error ≡ spec.error_in path.now line) }
{
    Ok(Diag {
        path: path.clone()?,
        line: line.line,
        column: line.column,
        text: line.text,
    })
}

/// The errors of a file.
fn errors_in(alloc: Global, path: &Path, lines: BTreeSet<Line>) -> Result<Items<Diag>, NoMemory>
    ensures { IfOk result (λ errors. errors ≡ map (spec.error_in path.now) lines.keys) }
{
    let mut errors = Items::new(alloc);
    for line in lines {
        let error = error_in(path, line)?;
        errors.push(error)?;
    }
    Ok(errors)
}

/// The texts of the file of a number with these units of code.
fn texts<A: Answers>(
    alloc: Global,
    answers: &A,
    index: &Index,
    number: FileNo,
    path: &Path,
    units: &[Unit],
) -> Result<FileTexts, NoMemory>
    ensures object { IfOk result (λ texts. texts.object ≡ object_text (A.meanings answers.now) path.now units.now) }
    ensures partial { IfOk result (λ texts. Some texts.partial ≡ option_map (partial_text (A.meanings answers.now)) (slice_get index.now number)) }
{
    let object = object(alloc, answers, path, units)?;
    let partial = partial_text(alloc, answers, index, number)?;
    Ok(FileTexts { object, partial })
}

/// What a file of this number comes to that was checked.
fn outcome<A: Answers>(
    alloc: Global,
    answers: &A,
    index: &Index,
    number: FileNo,
    path: &Path,
    errors: BTreeSet<Line>,
    units: &[Unit],
) -> Result<Outcome, NoMemory>
    ensures { IfOk result (λ outcome. (file : FileTree) → slice_get index.now number ≡ Some file → outcome ≡ spec.outcome_as (A.meanings answers.now) path.now errors.keys units.now file) }
{
    if errors.is_empty() {
        let texts = texts(alloc, answers, index, number, path, units)?;
        Ok(Outcome::Texts(texts))
    } else {
        let errors = errors_in(alloc, path, errors)?;
        Ok(Outcome::Errors(errors))
    }
}

/// A file of this number, compiled.
fn compiled<A: Answers>(
    alloc: Global,
    answers: &A,
    index: &Index,
    number: FileNo,
    file: &FileTree,
) -> Result<CompiledFile, NoMemory>
    ensures compiled { IfOk result (λ made. slice_get index.now number ≡ Some file.now → made ≡ spec.compiled_with (A.meanings answers.now) file.now) }
    ensures ordered { IfOk result (λ made. AreInOrder made.graph.nodes) }
{
    let path = Path::from_str(alloc, file.path.as_str())?;
    let CheckedFile {
        errors,
        units,
        uses,
    } = check_file(alloc, answers, file)?;
    let graph = graph(alloc, answers, index, number, &uses)?;
    let units = units.as_slice();
    let outcome = outcome(alloc, answers, index, number, &path, errors, units)?;
    Ok(CompiledFile { outcome, graph })
}

/// The number of a file at this place.
fn number_at(place: usize) -> Result<FileNo, NoMemory>
    ensures { IfOk result (λ number. number ≡ place) }
{
    match FileNo::try_from(place) {
        Ok(number) => Ok(number),
        Err(_) => Err(NoMemory),
    }
}

/// The files of a module, compiled, in their order, where keys have these meanings.
fn compile_files<A: Answers>(
    alloc: Global,
    answers: &A,
    index: &Index,
) -> Result<Vec<CompiledFile>, NoMemory>
    ensures compiled { IfOk result (λ made. made.items ≡ map (spec.compiled_with (A.meanings answers.now)) index.now) }
    ensures ordered { IfOk result (λ made. All (λ (one : CompiledFile). AreInOrder one.graph.nodes) made.items) }
{
    let files = index.files();
    let mut made = Vec::new(alloc);
    for (place, file) in files.iter().enumerate() {
        let number = number_at(place)?;
        let one = compiled(alloc, answers, index, number, file)?;
        made.push(one)?;
    }
    Ok(made)
}

/// The file of a number, compiled, where keys have these meanings.
///
/// An error says that memory was wanted and not there, or that the module has no file of the number.
pub fn compile_file<A: Answers>(
    alloc: Global,
    answers: &A,
    index: &Index,
    number: FileNo,
) -> Result<CompiledFile, NoMemory>
    ensures compiled { IfOk result (λ made. Some made ≡ option_map (spec.compiled_with (A.meanings answers.now)) (slice_get index.now number)) }
    ensures ordered { IfOk result (λ made. AreInOrder made.graph.nodes) }
{
    match at(index.files(), number as usize) {
        None => Err(NoMemory),
        Some(file) => {
            let made = compiled(alloc, answers, index, number, file)?;
            Ok(made)
        }
    }
}

/// The files of a module, compiled, in their order.
pub fn compile_module(alloc: Global, index: &Index) -> Result<Vec<CompiledFile>, NoMemory>
    ensures compiled { IfOk result (λ made. made.items ≡ map (spec.compiled_in index.now) index.now) }
    ensures ordered { IfOk result (λ made. All (λ (one : CompiledFile). AreInOrder one.graph.nodes) made.items) }
{
    let meanings = settle(alloc, index)?;
    let made = compile_files(alloc, &meanings, index)?;
    Ok(made)
}
