ghost use Rattle.std.specs.Prelude.{◌≡◌};
ghost use Rattle.drv_outside.specs.declared.types.TreeEnd.{TreeEnd};

use dep_key::{Name, NoMemory, Path, Text};
use std::alloc::{AllocError, AllocFailed};

/// A call failed.
#[derive(Clone, Copy, Debug, PartialEq, Eq)]
pub struct Fault;

/// When a source was last changed, as seconds and nanoseconds since the start of 1970, and its
/// length in bytes. Stamps are compared for equality alone.
#[derive(Clone, Copy, Debug, PartialEq, Eq)]
pub struct Stamp {
    pub secs: u64,
    pub nanos: u32,
    pub size: u64,
}

/// A source as a tree lists it.
#[derive(Clone, Debug, Drop, PartialEq, Eq)]
pub struct Entry {
    pub path: Path,
    pub stamp: Stamp,
}

/// A source with its bytes.
#[derive(Clone, Debug, Drop, PartialEq, Eq)]
pub struct Source {
    pub path: Path,
    pub stamp: Stamp,
    pub bytes: Text,
}

/// Why a call that reads gave no answer.
#[derive(Clone, Copy, Debug, PartialEq, Eq)]
pub enum TreeEnd {
    /// The tree failed.
    Failed,
    /// Memory was wanted and not there.
    NoMemory,
}

impl From<AllocError> for TreeEnd {
    ghost from_gives = { λ _ e. e ≡ TreeEnd.NoMemory };

    fn from(_: AllocError) -> Self {
        TreeEnd::NoMemory
    }
}

impl<T: Drop> From<AllocFailed<T>> for TreeEnd {
    ghost from_gives = { λ _ e. e ≡ TreeEnd.NoMemory };

    fn from(_: AllocFailed<T>) -> Self {
        TreeEnd::NoMemory
    }
}

impl From<NoMemory> for TreeEnd {
    ghost from_gives = { λ _ e. e ≡ TreeEnd.NoMemory };

    fn from(_: NoMemory) -> Self {
        TreeEnd::NoMemory
    }
}

/// A call of a tree, with what it was given.
#[derive(Clone, Debug, Drop, PartialEq, Eq)]
pub enum Call {
    List,
    ReadSource(Path),
    ReadMap(Path),
    Names,
    ReadFile(Name),
    Write(Name, Text),
    Remove(Name),
    Sync,
}
