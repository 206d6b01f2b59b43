//! From what a run sees to equal files: a file that no change reaches is compiled to the same in both modules.
#![tactic(auto)]

ghost use Rattle.module_coverage.specs.Laws.{CoveredFilesAreAlike, RecordedPrintsTell, UsesOfNodesCover};

pub use swift_ast::FileTree;

/// Digests that tell prints apart tell which keys moved. Where the keys that nodes of unchanged files use have moved in
/// no changed file, the changes are covered; and a file that hasn't changed, and of whose uses none has moved, is
/// compiled to the same in both modules.
pub fn module_coverage_laws()
    ensures covered { UsesOfNodesCover }
    ensures told { RecordedPrintsTell }
    ensures alike { CoveredFilesAreAlike }
{}
