//! Laws of spellings. Each function's contract is the law; it does nothing when it runs.

ghost use Rattle.std.specs.Prelude.{◌≡◌, ℕ, Bool, List, IsTrue, Err, false};
ghost use Rattle.dep_key.specs.declared.graph.FileGraph.{FileGraph};
ghost use Rattle.swiftdeps.specs.declared.fault.DepsFault.{DepsFault};
ghost use Rattle.swiftdeps.specs.Fronts.{IsFirstFault};
ghost use Rattle.swiftdeps.specs.Spelling.{BytesSpell};
ghost use Rattle.swiftdeps.specs.Stages.{is_version};
ghost use Rattle.swiftdeps.specs.Streams.{bytes_judged};
ghost use Rattle.swiftdeps.specs.Written.{IsWritten};

/// Bytes spell one version and one list of file graphs at most.
pub fn bytes_spell_one_list()
    ensures { (bytes : List ℕ) (version other : ℕ) (files others : List FileGraph) → IsTrue (is_version false version) → IsTrue (is_version false other) → BytesSpell version files bytes → BytesSpell other others bytes → (version ≡ other) × (files ≡ others) }
{}

/// The first fault is told at the first item with which no accepted list goes on: some accepted list
/// begins with the items before it. Where there is no such item it is told at the end.
pub fn no_accepted_list_goes_on_at_the_first_fault()
    ensures { (is_single : Bool) (bytes : List ℕ) (fault : DepsFault) → bytes_judged is_single bytes ≡ Err fault → IsFirstFault is_single bytes fault }
{}

/// File graphs have one written spelling.
pub fn written_is_one()
    ensures { (version : ℕ) (files : List FileGraph) (one other : List ℕ) → IsWritten version files one → IsWritten version files other → one ≡ other }
{}
