//! Whether files can be written as priors.

ghost use Rattle.std.specs.Prelude.{◌≡◌, IsTrue, IfOk, map};
ghost use Rattle.std.specs.List.{AllByRecursion};
ghost use Rattle.swiftdeps.specs.Spelling.{AreAscendingTexts, paths_of};
ghost use Rattle.swiftdeps.specs.Written.{AreWritable, IsWritable};

use dep_key::{FileGraph, Path};
use ordered_lists::ascends;
use std::alloc::{AllocError, Global};
use swiftdeps::is_writable;

fn paths(alloc: Global, files: &[FileGraph]) -> Result<Vec<Path>, AllocError>
    ensures { IfOk result (λ paths. paths.items ≡ paths_of files.now) }
{
    let mut paths = Vec::new(alloc);
    for file in files {
        let path = Path::from_str(alloc, file.path.as_str())?;
        paths.push(path)?;
    }
    Ok(paths)
}

fn each_is_writable(files: &[FileGraph]) -> bool
    ensures { IsTrue result → AllByRecursion IsWritable files.now }
{
    match files {
        [] => true,
        [file, more @ ..] => is_writable(file) && each_is_writable(more),
    }
}

/// Whether the paths ascend, and each file can be written.
pub fn are_writable(alloc: Global, files: &[FileGraph]) -> Result<bool, AllocError>
    ensures { IfOk result (λ are. IsTrue are → AreWritable files.now) }
{
    let paths = paths(alloc, files)?;
    Ok(ascends(&paths) && each_is_writable(files))
}
