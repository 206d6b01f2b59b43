//! All outputs of a build, in the order in which they are written.

ghost use Rattle.std.specs.Prelude.{◌≡◌, length, IfOk, IfSome, IsUtf8};
ghost use Rattle.swiftdeps.specs.Spelling.{AreAscendingTexts, paths_of};
ghost use Rattle.driver_build.specs.Wanted.{wanted};
ghost use Rattle.driver_build.specs.Outputs.{AreOutputs};

use crate::file_outputs::outputs_of_files;
use crate::module_outputs::{module_outputs, priors_file, record_file};
use crate::{Asked, FileResult};
use dep_key::{FileGraph, NoMemory};
use disk_commit::File;
use std::alloc::Global;

/// All outputs of a build but the gate, in the order in which they are written: of each compiled file without errors the
/// object, the partial text and the dependency file; the merged module and the image, where no file has errors; the priors,
/// which are these graphs; the record.
///
/// Texts and graphs without the form of their kind end as want of memory does.
pub fn outputs(
    alloc: Global,
    asked: &Asked,
    name: &str,
    files: Vec<FileResult>,
    graphs: &[FileGraph],
) -> Result<Vec<File>, NoMemory>
    requires name { name.now ≡ asked.now.«module» }
    requires module { IsUtf8 asked.now.«module» }
    requires map { IfSome asked.now.map IsUtf8 }
    requires each { length files.items ≡ length asked.now.names.files }
    requires listed { length files.items ≡ length asked.now.listed.items }
    requires ascending { AreAscendingTexts (paths_of graphs.now) }
    ensures outputs { IfOk result (λ made. AreOutputs (wanted asked.now) files.items graphs.now made.items) }
{
    let mut of_module = module_outputs(alloc, asked, name, &files)?;
    of_module.push(priors_file(alloc, asked, graphs)?)?;
    of_module.push(record_file(alloc, asked, &files)?)?;
    let mut made = outputs_of_files(alloc, asked.names.files.as_slice(), files)?;
    made.append(&mut of_module)?;
    Ok(made)
}
