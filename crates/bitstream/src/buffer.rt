//! Bits on their way to bytes.

ghost use Rattle.std.specs.Prelude.{◌≡◌, ◌≤◌, ◌*◌, ◌+◌, ◌%◌, ◌^◌, ◌<◌, ◌++◌, [], length, take, drop, OnOk, OnErr};
ghost use Rattle.std.specs.List.{flat_map};
ghost use Rattle.std.specs.Int.{w32, to_le_bytes};
ghost use Rattle.bitstream.specs.declared.codes.TheConstants.{ENCODING_WIDTH};
ghost use Rattle.bitstream.specs.Bits.{bits, bits_of};
ghost use Rattle.bitstream.specs.Writing.{written_of, op_bits, aligned, with_field, Grows};

use crate::codes::{
    ABBREV_WIDTH, ENCODING_ARRAY, ENCODING_BLOB, ENCODING_CHAR6, ENCODING_FIXED, ENCODING_VBR,
    ENCODING_WIDTH, LITERAL_WIDTH, WORD_BITS,
};
use crate::{AbbrevOp, NoMemory, Text};
use std::alloc::Global;

/// Whole words of 32 bits, and fewer than 32 bits that wait.
#[derive(Drop)]
pub struct BitBuffer {
    bytes: Vec<u8>,
    pending: u64,
    count: u32,
    ghost whole: { length bytes.items % 4 ≡ 0 },
    ghost few: { count < 32 },
    ghost low: { pending < 2 ^ count },
}

/// How far a buffer was filled.
#[derive(Clone, Copy)]
pub struct Mark {
    len: usize,
    pending: u64,
    count: u32,
    ghost whole: { len % 4 ≡ 0 },
    ghost few: { count < 32 },
    ghost low: { pending < 2 ^ count },
}

/// The pending bits with the value behind them.
fn joined(pending: u64, count: u32, value: u64, width: u32) -> u128
    requires few { count < 32 }
    requires low { pending < 2 ^ count }
    requires width { width ≤ 64 }
    requires value { value < 2 ^ width }
    ensures sum { result ≡ value * 2 ^ count + pending }
    ensures fits { result < 2 ^ (count + width) }
{
    (value as u128) << count | pending as u128
}

/// Writes a number over the four bytes from `at` on.
fn overwrite(bytes: &mut [u8], at: usize, number: u32)
    requires { at + 4 ≤ length bytes.old }
    ensures { bytes.new ≡ take at bytes.old ++ (to_le_bytes w32 number ++ drop (at + 4) bytes.old) }
{
    let (_, back) = bytes.split_at_mut(at);
    let (field, _) = back.split_at_mut(4);
    field.copy_from_slice(&number.to_le_bytes());
}

fn overwrite_in(bytes: &mut Vec<u8>, at: usize, number: u32)
    requires { at + 4 ≤ length bytes.old.items }
    ensures { bytes.new.items ≡ take at bytes.old.items ++ (to_le_bytes w32 number ++ drop (at + 4) bytes.old.items) }
{
    overwrite(bytes.as_mut_slice(), at, number);
}

impl BitBuffer {
    ghost use Rattle.bitstream.specs.Buffer.{bits_in};
    ghost use Rattle.bitstream.specs.Written.{OperandFits, OperandsFit};

    pub fn new(alloc: Global) -> BitBuffer
        ensures { bits_in result ≡ [] }
    {
        BitBuffer {
            bytes: Vec::new(alloc),
            pending: 0,
            count: 0,
        }
    }

    pub fn len(&self) -> usize
        ensures { result ≡ length self.now.bytes.items }
    {
        self.bytes.len()
    }

    pub fn push_bits(&mut self, value: u64, width: u32) -> Result<(), NoMemory>
        requires width { width ≤ 64 }
        requires value { value < 2 ^ width }
        ensures ok { OnOk result (bits_in self.new ≡ bits_in self.old ++ bits width value) }
        ensures err { OnErr result (bits_in self.new ≡ bits_in self.old) }
        ensures kept { Grows self.old.bytes.items self.new.bytes.items }
    {
        let all = joined(self.pending, self.count, value, width);
        let count = self.count + width;
        if count < 32 {
            self.pending = all as u64;
            self.count = count;
            return Ok(());
        }
        if count < 64 {
            let word = (all & 0xffff_ffff) as u32;
            if let Err(_) = self.bytes.extend_from_slice(&word.to_le_bytes()) {
                return Err(NoMemory);
            }
            self.pending = (all >> 32) as u64;
            self.count = count - 32;
            return Ok(());
        }
        let word = (all & 0xffff_ffff_ffff_ffff) as u64;
        if let Err(_) = self.bytes.extend_from_slice(&word.to_le_bytes()) {
            return Err(NoMemory);
        }
        self.pending = (all >> 64) as u64;
        self.count = count - 64;
        Ok(())
    }

    /// Adds bytes one by one.
    fn push_each(&mut self, bytes: &[u8]) -> Result<(), NoMemory>
        ensures ok { OnOk result (bits_in self.new ≡ bits_in self.old ++ bits_of bytes.now) }
        ensures kept { Grows self.old.bytes.items self.new.bytes.items }
    {
        for &byte in bytes {
            if let Err(error) = self.push_bits(byte as u64, 8) {
                return Err(error);
            }
        }
        Ok(())
    }

    /// Adds bytes, whole words of them at once where no bits wait.
    pub fn push_bytes(&mut self, bytes: &[u8]) -> Result<(), NoMemory>
        ensures ok { OnOk result (bits_in self.new ≡ bits_in self.old ++ bits_of bytes.now) }
        ensures kept { Grows self.old.bytes.items self.new.bytes.items }
    {
        if self.count > 0 {
            return self.push_each(bytes);
        }
        let (words, rest) = bytes.split_at(bytes.len() / 4 * 4);
        if let Err(_) = self.bytes.extend_from_slice(words) {
            return Err(NoMemory);
        }
        self.push_each(rest)
    }

    fn push_encoding(&mut self, encoding: u64) -> Result<(), NoMemory>
        requires { encoding < 8 }
        ensures ok { OnOk result (bits_in self.new ≡ bits_in self.old ++ (bits 1 0 ++ bits ENCODING_WIDTH encoding)) }
        ensures kept { Grows self.old.bytes.items self.new.bytes.items }
    {
        self.push_bits(2 * encoding, 1 + ENCODING_WIDTH)
    }

    /// The bits of one operand of a definition.
    pub fn push_op(&mut self, op: AbbrevOp) -> Result<(), NoMemory>
        ensures ok { OnOk result (bits_in self.new ≡ bits_in self.old ++ op_bits op) }
        ensures fits { OnOk result (OperandFits op) }
        ensures kept { Grows self.old.bytes.items self.new.bytes.items }
    {
        match op {
            AbbrevOp::Literal(value) => {
                if let Err(error) = self.push_bits(1, 1) {
                    return Err(error);
                }
                self.push_vbr(value, LITERAL_WIDTH)
            }
            AbbrevOp::Fixed(width) => {
                if let Err(error) = self.push_encoding(ENCODING_FIXED) {
                    return Err(error);
                }
                self.push_vbr(width as u64, ABBREV_WIDTH)
            }
            AbbrevOp::Vbr(width) => {
                if let Err(error) = self.push_encoding(ENCODING_VBR) {
                    return Err(error);
                }
                self.push_vbr(width as u64, ABBREV_WIDTH)
            }
            AbbrevOp::Array => self.push_encoding(ENCODING_ARRAY),
            AbbrevOp::Char6 => self.push_encoding(ENCODING_CHAR6),
            AbbrevOp::Blob => self.push_encoding(ENCODING_BLOB),
        }
    }

    pub fn push_ops(&mut self, ops: &[AbbrevOp]) -> Result<(), NoMemory>
        ensures ok { OnOk result (bits_in self.new ≡ bits_in self.old ++ flat_map op_bits ops.now) }
        ensures fit { OnOk result (OperandsFit ops.now) }
        ensures kept { Grows self.old.bytes.items self.new.bytes.items }
    {
        for &op in ops {
            if let Err(error) = self.push_op(op) {
                return Err(error);
            }
        }
        Ok(())
    }

    /// Adds zeros up to the next word.
    pub fn align(&mut self) -> Result<(), NoMemory>
        ensures ok { OnOk result (bits_in self.new ≡ aligned (bits_in self.old)) }
        ensures whole { OnOk result (bits_in self.new ≡ bits_of self.new.bytes.items) }
        ensures kept { Grows self.old.bytes.items self.new.bytes.items }
    {
        self.push_bits(0, (WORD_BITS - self.count) % WORD_BITS)
    }

    /// Writes a number over the four bytes from `at` on.
    pub fn set_field(&mut self, at: usize, number: u32)
        requires within { at + 4 ≤ length self.old.bytes.items }
        requires whole { bits_in self.old ≡ bits_of self.old.bytes.items }
        ensures written { bits_in self.new ≡ with_field (8 * at) number (bits_in self.old) }
        ensures words { length (bits_in self.new) % 32 ≡ 0 }
        ensures len { length self.new.bytes.items ≡ length self.old.bytes.items }
    {
        overwrite_in(&mut self.bytes, at, number);
    }

    pub fn mark(&self) -> Mark
        ensures len { result.len ≡ length self.now.bytes.items }
        ensures pending { result.pending ≡ self.now.pending }
        ensures count { result.count ≡ self.now.count }
    {
        Mark {
            len: self.bytes.len(),
            pending: self.pending,
            count: self.count,
        }
    }

    /// Drops what was added since the mark was taken.
    pub fn reset(&mut self, mark: Mark)
        requires { mark.len ≤ length self.old.bytes.items }
        ensures bytes { self.new.bytes.items ≡ take mark.len self.old.bytes.items }
        ensures written { bits_in self.new ≡ written_of (take mark.len self.old.bytes.items) mark.count mark.pending }
    {
        self.bytes.truncate(mark.len);
        self.pending = mark.pending;
        self.count = mark.count;
    }

    /// The bytes of whole words. Takes no memory.
    pub fn into_bytes(self) -> Text
        requires { length (bits_in self) % 32 ≡ 0 }
        ensures { bits_of result ≡ bits_in self }
    {
        let BitBuffer { bytes, .. } = self;
        Text::from_vec(bytes)
    }
}
