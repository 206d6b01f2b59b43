//! Laws of what a build folder says of the build before. The contract is the law; the function does nothing when it runs.

ghost use Rattle.std.specs.Prelude.{◌≡◌, Result};
ghost use Rattle.wave_plan.specs.declared.plan.Seen.{Seen};
ghost use Rattle.wave_plan.specs.declared.plan.Asked.{Asked};
ghost use Rattle.wave_plan.specs.declared.plan.PriorsWhy.{PriorsWhy};
ghost use Rattle.wave_plan.specs.Validity.{LastBuild, IsJudged};

/// A folder has valid priors for one last build, or one first reason why they aren't valid, and never both.
pub fn judgement_is_one()
    ensures { (seen : Seen) (asked : Asked) (one other : Result LastBuild PriorsWhy) → IsJudged seen asked one → IsJudged seen asked other → one ≡ other }
{}
