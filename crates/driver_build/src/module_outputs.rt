//! The outputs of a module: the merged module, the image, the priors and the record.

ghost use Rattle.std.specs.Prelude.{◌≡◌, ◌++◌, [], ◌∷◌, length, IsTrue, IfOk, IfSome, IsUtf8, OnOk};
ghost use Rattle.std.specs.List.{AllByRecursion, list_all};
ghost use Rattle.module_merge.specs.Image.{IsImage};
ghost use Rattle.module_merge.specs.Module.{IsMergedModule, is_partial};
ghost use Rattle.module_merge.specs.Object.{is_object};
ghost use Rattle.swiftdeps.specs.Spelling.{AreAscendingTexts, paths_of};
ghost use Rattle.swiftdeps.specs.Written.{IsWritable, IsWritten};
ghost use Rattle.driver_build.specs.Wanted.{wanted};
ghost use Rattle.driver_build.specs.Outputs as spec;
ghost use Rattle.driver_build.specs.Results as results;

use crate::file_outputs::file_named;
use crate::results::{are_clean, is_clean};
use crate::{Asked, FileResult};
use build_record::{BuildRecord, FileState};
use dep_key::{FileGraph, NoMemory, Text};
use disk_commit::File;
use drv_outside::Entry;
use module_compile::Outcome;
use module_merge::{image, is_object, is_partial, merged_module};
use sqlite_items::Items;
use std::alloc::Global;
use swiftdeps::is_writable;

/// Pushes a copy of a text.
fn push_copy(texts: &mut Vec<Text>, text: &Text) -> Result<(), NoMemory>
    ensures { OnOk result (texts.new.items ≡ texts.old.items ++ text.now ∷ []) }
{
    texts.push(text.clone()?)?;
    Ok(())
}

/// Pushes the object of a file, where it has no errors.
fn push_object(objects: &mut Vec<Text>, file: &FileResult) -> Result<(), NoMemory>
    ensures { OnOk result (objects.new.items ≡ objects.old.items ++ results.object_in file.now) }
{
    match file {
        FileResult::Compiled(compiled) => match &compiled.outcome {
            Outcome::Texts(texts) => push_copy(objects, &texts.object),
            Outcome::Errors(_) => Ok(()),
        },
        FileResult::Kept(texts) => push_copy(objects, &texts.object),
    }
}

/// Pushes the partial text of a file, where it has no errors.
fn push_partial(partials: &mut Vec<Text>, file: &FileResult) -> Result<(), NoMemory>
    ensures { OnOk result (partials.new.items ≡ partials.old.items ++ results.partial_in file.now) }
{
    match file {
        FileResult::Compiled(compiled) => match &compiled.outcome {
            Outcome::Texts(texts) => push_copy(partials, &texts.partial),
            Outcome::Errors(_) => Ok(()),
        },
        FileResult::Kept(texts) => push_copy(partials, &texts.partial),
    }
}

/// The objects of files without errors, in order.
fn objects_of(alloc: Global, files: &[FileResult]) -> Result<Vec<Text>, NoMemory>
    ensures { IfOk result (λ objects. objects.items ≡ results.objects_of files.now) }
{
    let mut objects = Vec::new(alloc);
    for file in files {
        push_object(&mut objects, file)?;
    }
    Ok(objects)
}

/// The partial texts of files without errors, in order.
fn partials_of(alloc: Global, files: &[FileResult]) -> Result<Vec<Text>, NoMemory>
    ensures { IfOk result (λ partials. partials.items ≡ results.partials_of files.now) }
{
    let mut partials = Vec::new(alloc);
    for file in files {
        push_partial(&mut partials, file)?;
    }
    Ok(partials)
}

/// Whether each text is a partial one.
fn are_partials(partials: &[Text]) -> bool
    ensures { result ≡ list_all is_partial partials.now }
{
    partials
        .iter()
        .all(|partial| is_partial(partial.as_slice()))
}

/// Whether each text is an object.
fn are_objects(objects: &[Text]) -> bool
    ensures { result ≡ list_all is_object objects.now }
{
    objects.iter().all(|object| is_object(object.as_slice()))
}

/// Whether each graph has a spelling.
fn are_writable(graphs: &[FileGraph]) -> bool
    ensures { IsTrue result → AllByRecursion IsWritable graphs.now }
{
    for graph in graphs {
        if !is_writable(graph) {
            return false;
        }
    }
    true
}

/// The merged text of partial texts. Other texts end as want of memory does.
fn merged_text(alloc: Global, name: &str, partials: &[Text]) -> Result<Text, NoMemory>
    ensures { IfOk result (λ text. IsMergedModule name.now partials.now text) }
{
    if !are_partials(partials) {
        return Err(NoMemory);
    }
    merged_module(alloc, name, partials)
}

/// The image of objects. Other texts, and objects that can't be linked, end as want of memory does.
fn image_text(alloc: Global, name: &str, objects: &[Text]) -> Result<Text, NoMemory>
    ensures { IfOk result (λ text. IsImage name.now objects.now text) }
{
    if !are_objects(objects) {
        return Err(NoMemory);
    }
    match image(alloc, name, objects) {
        Ok(text) => Ok(text),
        Err(_) => Err(NoMemory),
    }
}

/// The file of the merged module.
fn merged_file(
    alloc: Global,
    asked: &Asked,
    name: &str,
    files: &[FileResult],
) -> Result<File, NoMemory>
    requires name { name.now ≡ asked.now.«module» }
    ensures { IfOk result (λ made. spec.IsMergedFile (wanted asked.now) files.now made) }
{
    let partials = partials_of(alloc, files)?;
    let bytes = merged_text(alloc, name, &partials)?;
    let file = file_named(&asked.names.module, bytes)?;
    Ok(file)
}

/// The file of the image.
fn image_file(
    alloc: Global,
    asked: &Asked,
    name: &str,
    files: &[FileResult],
) -> Result<File, NoMemory>
    requires name { name.now ≡ asked.now.«module» }
    ensures { IfOk result (λ made. spec.IsImageFile (wanted asked.now) files.now made) }
{
    let objects = objects_of(alloc, files)?;
    let bytes = image_text(alloc, name, &objects)?;
    let file = file_named(&asked.names.image, bytes)?;
    Ok(file)
}

/// The merged module and the image of files without errors.
fn linked_files(
    alloc: Global,
    asked: &Asked,
    name: &str,
    files: &[FileResult],
) -> Result<Vec<File>, NoMemory>
    requires name { name.now ≡ asked.now.«module» }
    ensures { IfOk result (λ made. spec.AreLinkedFiles (wanted asked.now) files.now made.items) }
{
    let merged = merged_file(alloc, asked, name, files)?;
    let linked = image_file(alloc, asked, name, files)?;
    let mut made = Vec::new(alloc);
    made.push(merged)?;
    made.push(linked)?;
    Ok(made)
}

/// The merged module and the image, where no file has errors.
pub fn module_outputs(
    alloc: Global,
    asked: &Asked,
    name: &str,
    files: &[FileResult],
) -> Result<Vec<File>, NoMemory>
    requires name { name.now ≡ asked.now.«module» }
    ensures { IfOk result (λ made. spec.AreModuleOutputs (wanted asked.now) files.now made.items) }
{
    if are_clean(files) {
        let made = linked_files(alloc, asked, name, files)?;
        Ok(made)
    } else {
        Ok(Vec::new(alloc))
    }
}

/// The file of the priors. A graph that has no spelling ends as want of memory does.
pub fn priors_file(alloc: Global, asked: &Asked, graphs: &[FileGraph]) -> Result<File, NoMemory>
    requires ascending { AreAscendingTexts (paths_of graphs.now) }
    ensures { IfOk result (λ made. spec.IsPriorsFile (wanted asked.now) graphs.now made) }
{
    if !are_writable(graphs) {
        return Err(NoMemory);
    }
    let bytes = priors_store::encode(alloc, graphs)?;
    let file = file_named(&asked.names.priors, bytes)?;
    Ok(file)
}

/// A source and whether it has no errors.
fn file_state(entry: &Entry, file: &FileResult) -> Result<FileState, NoMemory>
    ensures { IfOk result (λ state. state ≡ record { path = entry.now.path; stamp = entry.now.stamp; clean = results.is_clean file.now }) }
{
    let path = entry.path.clone()?;
    let clean = is_clean(file);
    Ok(FileState {
        path,
        stamp: entry.stamp,
        clean,
    })
}

/// The sources and whether they have no errors.
fn file_states(
    alloc: Global,
    entries: &[Entry],
    files: &[FileResult],
) -> Result<Items<FileState>, NoMemory>
    requires each { length files.now ≡ length entries.now }
    ensures states { IfOk result (λ states. states ≡ spec.file_states entries.now files.now) }
{
    let mut states = Items::new(alloc);
    let mut place = 0usize;
    for file in files {
        let state = file_state(&entries[place], file)?;
        states.push(state)?;
        place += 1;
    }
    Ok(states)
}

/// The text of the output file map, where there is one.
fn copied_map(asked: &Asked) -> Result<Option<Text>, NoMemory>
    ensures { IfOk result (λ map. map ≡ asked.now.map) }
{
    match &asked.map {
        Some(text) => {
            let copy = text.clone()?;
            Ok(Some(copy))
        }
        None => Ok(None),
    }
}

/// What a build records of itself.
fn build_record_of(
    alloc: Global,
    asked: &Asked,
    files: &[FileResult],
) -> Result<BuildRecord, NoMemory>
    requires each { length files.now ≡ length asked.now.listed.items }
    ensures made { IfOk result (λ made. made ≡ spec.build_record_of (wanted asked.now) files.now) }
{
    let module = asked.module.clone()?;
    let map = copied_map(asked)?;
    let files = file_states(alloc, &asked.listed, files)?;
    Ok(BuildRecord { module, map, files })
}

/// The file of the record.
pub fn record_file(alloc: Global, asked: &Asked, files: &[FileResult]) -> Result<File, NoMemory>
    requires module { IsUtf8 asked.now.«module» }
    requires map { IfSome asked.now.map IsUtf8 }
    requires each { length files.now ≡ length asked.now.listed.items }
    ensures made { IfOk result (λ made. made ≡ spec.record_file (wanted asked.now) files.now) }
{
    let made = build_record_of(alloc, asked, files)?;
    let bytes = build_record::encode(alloc, &made)?;
    let file = file_named(&asked.names.build_record, bytes)?;
    Ok(file)
}
