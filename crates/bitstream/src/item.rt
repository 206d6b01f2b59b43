use crate::Operands;

/// One part of an abbreviation: how an operand of its records is written.
#[derive(Clone, Copy, Debug, PartialEq, Eq)]
pub enum AbbrevOp {
    /// The number is the abbreviation's own, and takes no bits in a record.
    Literal(u64),
    /// A number of this many bits.
    Fixed(u32),
    /// A number in groups of this many bits.
    Vbr(u32),
    /// A length, and as many numbers, each written as the operand behind this one says.
    Array,
    /// A letter, a digit, `.` or `_` in six bits.
    Char6,
    /// A length, and as many bytes between two alignments.
    Blob,
}

/// What a bitstream shows, one after the other.
#[derive(Debug, Drop)]
pub enum Item<'b> {
    /// A block with this number begins.
    Enter {
        block: u32,
    },
    /// The innermost block ends.
    Leave,
    /// A record. Its blob is a slice of the input.
    Rec {
        code: u64,
        ops: Operands,
        blob: Option<&'b [u8]>,
    },
    /// The input ends, outside all blocks.
    End,
}

/// Why bits can't be read. `at` is a position in bits, from the first bit of the input.
#[derive(Clone, Copy, Debug, PartialEq, Eq)]
pub enum BitFault {
    /// The field, or the group of a number, that begins here needs bits that aren't there.
    Short { at: u128 },
    /// The id here has no definition.
    UnknownAbbrev { at: u128, id: u64 },
    /// The encoding here is none that a definition can have.
    BadEncoding { at: u128, code: u64 },
    /// The entry that begins here has operands that it may not have.
    BadOperands { at: u128 },
    /// The block that was entered here has another length in words than it says.
    BadBlockLength { at: u128, said: u64 },
    /// The entry here needs a block that is open.
    OutsideBlock { at: u128 },
    /// The number that begins here doesn't fit 64 bits.
    WideNumber { at: u128 },
    /// The block that is entered here is nested too deep.
    TooDeep { at: u128 },
    /// Memory was wanted and not there.
    NoMemory,
}
