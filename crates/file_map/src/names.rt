ghost use Rattle.std.specs.Prelude.{◌≡◌, ◌++◌, IfOk, OnOk};
ghost use Rattle.file_map.specs.Assigned.{all_names, names_of_file, names_of_module};

use drv_outside::{Name, NoMemory};
use sqlite_items::Items;
use std::alloc::Global;

/// The files of the build folder to which the outputs of a build go.
#[derive(Debug, Drop)]
pub struct Names {
    /// The outputs of each source, in the order of the sources.
    pub files: Items<FileNames>,
    /// The merged module text.
    pub module: Name,
    pub image: Name,
    pub priors: Name,
    pub build_record: Name,
    pub gate: Name,
}

/// The files to which the outputs of a source go.
#[derive(Debug, Drop)]
pub struct FileNames {
    pub object: Name,
    /// The partial module text.
    pub partial: Name,
    /// The dependency file.
    pub deps: Name,
}

impl Names {
    /// All names: of each source, in the order of the sources, the object, the partial text and the
    /// dependency file, and then the module text, the image, the priors, the build record and the gate.
    pub fn all_names(&self, alloc: Global) -> Result<Vec<Name>, NoMemory>
        ensures { IfOk result (λ names. names.items ≡ all_names self.now) }
    {
        let names = all_names(alloc, self)?;
        Ok(names)
    }
}

fn copy_of(alloc: Global, name: &Name) -> Result<Name, NoMemory>
    ensures { IfOk result (λ copy. copy ≡ name.now) }
{
    let copy = Name::from_str(alloc, name.as_str())?;
    Ok(copy)
}

// Adds the names of a source's outputs.
fn push_file(alloc: Global, all: &mut Vec<Name>, file: &FileNames) -> Result<(), NoMemory>
    ensures { OnOk result (all.new.items ≡ all.old.items ++ names_of_file file.now) }
{
    all.push(copy_of(alloc, &file.object)?)?;
    all.push(copy_of(alloc, &file.partial)?)?;
    all.push(copy_of(alloc, &file.deps)?)?;
    Ok(())
}

// Adds the names of the module's outputs.
fn push_module(alloc: Global, all: &mut Vec<Name>, names: &Names) -> Result<(), NoMemory>
    ensures { OnOk result (all.new.items ≡ all.old.items ++ names_of_module names.now) }
{
    all.push(copy_of(alloc, &names.module)?)?;
    all.push(copy_of(alloc, &names.image)?)?;
    all.push(copy_of(alloc, &names.priors)?)?;
    all.push(copy_of(alloc, &names.build_record)?)?;
    all.push(copy_of(alloc, &names.gate)?)?;
    Ok(())
}

// All names of the outputs.
pub(crate) fn all_names(alloc: Global, names: &Names) -> Result<Vec<Name>, NoMemory>
    ensures { IfOk result (λ all. all.items ≡ all_names names.now) }
{
    let mut all = Vec::new(alloc);
    for file in names.files.as_slice() {
        push_file(alloc, &mut all, file)?;
    }
    push_module(alloc, &mut all, names)?;
    Ok(all)
}
