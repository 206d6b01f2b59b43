//! The numbers of dependency files, most of them those of Swift's
//! (`swift/AST/FineGrainedDependencyFormat.h`).

/// The bytes in front of the bitstream.
pub const SIGNATURE: [u8; 4] = *b"DEPS";
/// How many these are.
pub const SIGNATURE_BYTES: usize = 4;

/// The number of the block, the first that LLVM leaves to applications.
pub const RECORD_BLOCK_ID: u32 = 8;
/// The width of ids in the block that is written, in bits.
pub const ID_WIDTH: u32 = 4;
/// The abbreviation of identifiers in the block that is written.
pub const IDENTIFIER_ABBREV: u64 = 4;

/// The abbreviation of fingerprints in it.
pub const FINGERPRINT_ABBREV: u64 = 5;

/// The record with the version.
pub const METADATA: u64 = 1;
/// The record of a node (`SOURCE_FILE_DEP_GRAPH_NODE`).
pub const NODE: u64 = 2;
/// The record of the fingerprint of the node before it (`FINGERPRINT_NODE`).
pub const FINGERPRINT: u64 = 3;
/// The record of a use of the node before it (`DEPENDS_ON_DEFINITION_NODE`, which here has a key).
pub const USE: u64 = 4;
/// The record of an identifier (`IDENTIFIER_NODE`).
pub const IDENTIFIER: u64 = 5;
/// The record that begins a file, which Swift's format has no more than one of.
pub const FILE: u64 = 6;
