//! A law of clean folders. The contract is the law; the function does nothing when it runs.

ghost use Rattle.driver_build.specs.Laws.{CleanFolderIsOne};

/// A module has one clean folder at most.
pub fn clean_folder_is_one()
    ensures { CleanFolderIsOne }
{}
