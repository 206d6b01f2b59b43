//! The numbers of the container, by LLVM's names where it has one (`llvm/Bitstream/BitCodeEnums.h`).

/// The id that ends the innermost block.
pub const END_BLOCK: u64 = 0;
/// The id with which a block begins.
pub const ENTER_SUBBLOCK: u64 = 1;
/// The id with which a definition of an abbreviation begins.
pub const DEFINE_ABBREV: u64 = 2;
/// The id of a record without an abbreviation.
pub const UNABBREV_RECORD: u64 = 3;
/// The id of the first abbreviation of a block; the others' count on from it.
pub const FIRST_APPLICATION_ABBREV: u64 = 4;

/// The block that has definitions for other blocks.
pub const BLOCKINFO_BLOCK_ID: u32 = 0;
/// The record of BLOCKINFO that names the block to which the definitions behind it belong.
pub const BLOCKINFO_CODE_SETBID: u64 = 1;

/// The width of ids outside all blocks, in bits.
pub const OUTER_ID_WIDTH: u32 = 2;
/// The least and the greatest width of ids in a block, in bits.
pub const LEAST_ID_WIDTH: u32 = 2;

pub const MOST_ID_WIDTH: u32 = 32;
/// How many blocks may be open at once.
pub const MOST_OPEN_BLOCKS: usize = 32;

/// The width of the groups of a block's number, in bits.
pub const BLOCK_ID_WIDTH: u32 = 8;
/// The width of the groups of a block's id width, in bits.
pub const CODE_LEN_WIDTH: u32 = 4;
/// The width of a block's length, in bits.
pub const BLOCK_SIZE_WIDTH: u32 = 32;
/// The bits of a word, to which blocks and blobs are aligned.
pub const WORD_BITS: u32 = 32;

/// The width of the groups of a code, of an operand, and of the length of a record, an array or a
/// blob, in bits.
pub const RECORD_WIDTH: u32 = 6;

/// The width of the groups of the number of a definition's operands, and of an operand's width, in
/// bits.
pub const ABBREV_WIDTH: u32 = 5;
/// The width of the groups of a literal, in bits.
pub const LITERAL_WIDTH: u32 = 8;
/// The width of an operand's encoding, in bits.
pub const ENCODING_WIDTH: u32 = 3;
/// The encodings of operands.
pub const ENCODING_FIXED: u64 = 1;

pub const ENCODING_VBR: u64 = 2;

pub const ENCODING_ARRAY: u64 = 3;

pub const ENCODING_CHAR6: u64 = 4;

pub const ENCODING_BLOB: u64 = 5;
/// The greatest width of a `Fixed`, in bits.
pub const MOST_FIXED_WIDTH: u32 = 64;
/// The greatest width of the groups of a `Vbr`, in bits.
pub const MOST_VBR_WIDTH: u32 = 32;

/// The width of a character of a `Char6`, in bits.
pub const CHAR6_WIDTH: u32 = 6;
/// The characters of a `Char6`, by their numbers.
pub const CHAR6_CHARACTERS: [u8; 64] =
    *b"abcdefghijklmnopqrstuvwxyzABCDEFGHIJKLMNOPQRSTUVWXYZ0123456789._";
