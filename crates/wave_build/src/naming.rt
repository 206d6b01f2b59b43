//! The paths of files, as the core knows them, and their numbers.

ghost use Rattle.std.specs.Prelude.{◌≡◌, [], ◌∷◌, length, IfOk, slice_get};
ghost use Rattle.std.specs.BTreeMap.{get};
ghost use Rattle.dep_graph.specs.Arcs.{path_order};
ghost use Rattle.wave_build.specs.Built.{path_of, paths_at, AreNumbered, AreNumbers};

use dep_key::{FileNo, Name, NoMemory, Path};
use sqlite_items::at;
use std::alloc::Global;
use std::collections::BTreeMap;
use swift_ast::FileTree;

/// The path of a file.
pub fn name_of(alloc: Global, file: &FileTree) -> Result<Name, NoMemory>
    ensures { IfOk result (λ name. name ≡ file.now.path) }
{
    let name = Name::from_str(alloc, file.path.as_str())?;
    Ok(name)
}

/// These paths.
pub fn names(alloc: Global, paths: &[Path]) -> Result<Vec<Name>, NoMemory>
    ensures { IfOk result (λ names. names.items ≡ paths.now) }
{
    let mut names = Vec::new(alloc);
    for path in paths {
        let name = Name::from_str(alloc, path.as_str())?;
        names.push(name)?;
    }
    Ok(names)
}

/// The path of the file of a number.
///
/// An error says that memory was wanted and not there, or that there is no such file.
fn name_at(alloc: Global, files: &[FileTree], number: FileNo) -> Result<Name, NoMemory>
    ensures { IfOk result (λ name. path_of (slice_get files.now number) ≡ name ∷ []) }
{
    match at(files, number as usize) {
        None => Err(NoMemory),
        Some(file) => {
            let name = name_of(alloc, file)?;
            Ok(name)
        }
    }
}

/// The paths of the files of these numbers.
pub fn names_at(
    alloc: Global,
    files: &[FileTree],
    numbers: &[FileNo],
) -> Result<Vec<Name>, NoMemory>
    ensures { IfOk result (λ names. names.items ≡ paths_at files.now numbers.now) }
{
    let mut names = Vec::new(alloc);
    for number in numbers {
        let name = name_at(alloc, files, *number)?;
        names.push(name)?;
    }
    Ok(names)
}

/// The number of a file at this place.
fn number_at(place: usize) -> Result<FileNo, NoMemory>
    ensures { IfOk result (λ number. number ≡ place) }
{
    match FileNo::try_from(place) {
        Ok(number) => Ok(number),
        Err(_) => Err(NoMemory),
    }
}

/// The numbers of files by their paths.
pub fn numbers(alloc: Global, files: &[FileTree]) -> Result<BTreeMap<Name, FileNo>, NoMemory>
    ensures numbers { IfOk result (λ numbers. AreNumbers files.now (get path_order numbers)) }
    ensures each { IfOk result (λ numbers. AreNumbered files.now (get path_order numbers) (length files.now)) }
{
    let mut numbers = BTreeMap::new(alloc);
    for (place, file) in files.iter().enumerate() {
        let number = number_at(place)?;
        let name = name_of(alloc, file)?;
        numbers.insert(name, number)?;
    }
    Ok(numbers)
}
