//! Laws of clean builds. The contract is the law; the function does nothing when it runs.

ghost use Rattle.std.specs.Prelude.{◌≡◌, ℕ, List};
ghost use Rattle.drv_outside.specs.declared.types.Source.{Source};
ghost use Rattle.driver_cmd.specs.Clean.{Clean, IsClean};

/// A module of a list of sources has one clean build and no other.
pub fn clean_build_is_one()
    ensures one { (name : List ℕ) (sources : List Source) → (one two : Clean) → IsClean name sources one → IsClean name sources two → one ≡ two }
{}
