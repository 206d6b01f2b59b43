//! The theory of builds in waves: which files are due for a change of a project, and what any order of
//! building them leaves. It knows no language, no disk and no thread.
//!
//! `specs/Builds.antt` says what changed and what is due, `specs/Machine.antt` how files are taken and
//! finished, `specs/Outputs.antt` what a build leaves, and `specs/Laws.antt` what holds of every change and
//! of every order of finishing.
#![tactic(auto)]

ghost use Rattle.waves.specs.Laws.{CausesAreSeen, CleanIsKept, CoveredRunsEndClean, DigestsMoveAlike, DueIsLeast, EachHasACause, IncrementalIsClean, ListsAreEqualByFile, RunsAgree, RunsAreClosed, RunsBegin, RunsEnd, RunsGoOn, RunsKeepTheRest, RunsTakeWhatIsDue, StepsAreFew};

/// What is due is a least set, and each file of it beyond the first has a cause.
pub fn due_laws<F, N, K, V>()
    ensures least { DueIsLeast F N K V }
    ensures cause { EachHasACause F N K V }
{}

/// Every complete run takes what is due, in whatever order.
pub fn order_laws<F, N, K, V>()
    ensures taken { RunsTakeWhatIsDue F N K V }
    ensures rest { RunsKeepTheRest F N K V }
    ensures agree { RunsAgree F N K V }
{}

/// Under coverage every complete run ends with the graph of the project as it is now.
pub fn clean_laws<F, N, K, V>()
    ensures closed { RunsAreClosed F N K V }
    ensures clean { CoveredRunsEndClean F N K V }
    ensures causes { CausesAreSeen F N K V }
{}

/// Lists of prints over all files are equal where each file's print is.
pub fn print_laws<F, N, K, V>()
    ensures equal { ListsAreEqualByFile F N K V }
{}

/// There is a run, none is stuck, and each ends.
pub fn progress_laws<F, N, K, V>()
    ensures begin { RunsBegin F N K V }
    ensures go_on { RunsGoOn F N K V }
    ensures end { RunsEnd F N K V }
{}

/// An incremental build leaves what a clean build leaves, and says the same.
pub fn incremental_laws<F, N, K, V, Line, Kind, Bytes, Name>()
    ensures clean { IncrementalIsClean F N K V Line Kind Bytes Name }
    ensures kept { CleanIsKept F N K V Line Kind Bytes Name }
{}

/// Waking files looks at each arc once, and digests of prints move where the prints do.
pub fn tracing_laws<F, N, K, V>()
    ensures few { StepsAreFew F N K V }
    ensures digests { DigestsMoveAlike F N K V }
{}
