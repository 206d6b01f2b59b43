ghost use Rattle.std.specs.Prelude.{◌≡◌};
ghost use Rattle.swiftdeps.specs.declared.fault.Stop.TheVariants.{Memory};

use bitstream::BitFault;
use dep_key::Path;
use std::alloc::{AllocError, AllocFailed};

/// The version of the files that hold the prints of one file.
pub const DEPENDENCIES_VERSION: u64 = 2;

/// The version of the files that hold digested prints of all files.
pub const PRIORS_VERSION: u64 = 3;

/// What stands before the file graphs.
#[derive(Clone, Copy, Debug, PartialEq, Eq)]
pub struct Header {
    pub version: u64,
}

/// Why bytes hold no file graphs. `at` is the first bit of an item, from the first bit behind the
/// signature.
#[derive(Debug, Drop, PartialEq, Eq)]
pub enum DepsFault {
    /// The bits are no bitstream.
    Bits(BitFault),
    /// The bytes don't begin with `DEPS`.
    Signature,
    /// The version is none that can be read.
    Version { found: u64 },
    /// The item can't stand there, or has other operands than it should, or a blob where it has none.
    RecordOrder { at: u128 },
    /// The number is that of no kind, or of no aspect.
    KindNumber { at: u128, value: u64 },
    /// There is no identifier of this number.
    IdentifierNumber { at: u128, value: u64 },
    /// A part of the key is empty that should be filled, or filled that should be empty.
    KeyShape { at: u128 },
    /// The identifier isn't UTF-8.
    NotUtf8 { at: u128 },
    /// The identifier, the path, the key of a node or the use isn't above the one before it, or the
    /// identifier or the path is empty.
    NotCanonicalOrder { at: u128 },
    /// The file has the path of the one before it.
    FileRepeated { path: Path },
    /// Memory was wanted and not there.
    NoMemory,
}

/// Why reading stopped.
#[derive(Drop)]
pub enum Stop {
    Memory,
    Fault(DepsFault),
}

impl From<AllocError> for Stop {
    ghost from_gives = { λ _ e. e ≡ Memory };

    fn from(_: AllocError) -> Stop {
        Stop::Memory
    }
}

impl<T: Drop> From<AllocFailed<T>> for Stop {
    ghost from_gives = { λ _ e. e ≡ Memory };

    fn from(_: AllocFailed<T>) -> Stop {
        Stop::Memory
    }
}
