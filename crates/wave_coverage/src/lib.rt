//! From the waves of a build to equal files: what a complete run skips is compiled to the same in both modules.
#![tactic(auto)]

ghost use Rattle.wave_coverage.specs.Laws.{ChangesAreCovered, OthersAreAlike};

pub use swift_ast::FileTree;

/// Outside every closed set of a change of a module the recorded nodes are the same before and now, so that the coverage
/// which the theory of waves presumes holds of modules that became another as `Became` says; and a file there stood in the
/// module before, and is compiled to the same.
pub fn wave_coverage_laws()
    ensures covered { ChangesAreCovered }
    ensures alike { OthersAreAlike }
{}
