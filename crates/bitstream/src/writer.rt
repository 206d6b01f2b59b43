ghost use Rattle.std.specs.Prelude.{◌≡◌, ◌≤◌, ◌*◌, ◌+◌, ◌%◌, ◌^◌, ◌<◌, ◌++◌, ◌∷◌, [], List, ℕ, Some, None, All, length, OnOk, OnErr, IfOk, IsTrue};
ghost use Rattle.bitstream.specs.Bits.{bits, bits_of};
ghost use Rattle.bitstream.specs.Writing.{vbr_bits};

use crate::abbrev::Abbrev;
use crate::buffer::BitBuffer;
use crate::codes::{FIRST_APPLICATION_ABBREV, OUTER_ID_WIDTH};
use crate::{AbbrevOp, NoMemory, Text};
use std::alloc::Global;

/// An open block: what its outer block has, and the byte at which its length field begins.
#[derive(Clone, Copy)]
pub struct OpenBlock {
    outer_width: u32,
    outer_first: usize,
    length_at: usize,
}

/// Writes a bitstream.
///
/// Bits go from the least significant of each byte upwards, as in the LLVM Bitstream Container
/// Format (<https://llvm.org/docs/BitCodeFormat.html>). A call that finds no memory leaves the
/// writer as it was.
// `first` is how many of the abbreviations the outer blocks have.
#[derive(Drop)]
pub struct BitWriter {
    alloc: Global,
    buffer: BitBuffer,
    width: u32,
    abbrevs: Vec<Abbrev>,
    first: usize,
    blocks: Vec<OpenBlock>,
    ghost low: { 2 ≤ width },
    ghost high: { width ≤ 32 },
    ghost fields: { All (λ b. b.length_at + 4 ≤ length buffer.bytes.items) blocks.items },
    ghost widths: { All (λ b. (2 ≤ b.outer_width) × (b.outer_width ≤ 32)) blocks.items },
}

impl BitWriter {
    ghost use Rattle.bitstream.specs.Writer.{writing, nothing_written, with_bits, entered, EndsBlock, next_id, defined, recorded, with_blob, IsBlobId, is_definition};
    ghost use Rattle.bitstream.specs.Reading.{Seen, Enters, LeaveBlock, Record};
    ghost use Rattle.bitstream.specs.Stands.{StandFor};
    ghost use Rattle.bitstream.specs.Items.{items_in};
    ghost use Rattle.bitstream.specs.Written.{HasWritten, IsBlobCode};

    /// A writer with no bits.
    pub fn new(alloc: Global) -> BitWriter
        ensures bits { writing result ≡ nothing_written }
        ensures wrote { HasWritten [] (writing result) }
    {
        BitWriter {
            alloc,
            buffer: BitBuffer::new(alloc),
            width: OUTER_ID_WIDTH,
            abbrevs: Vec::new(alloc),
            first: 0,
            blocks: Vec::new(alloc),
        }
    }

    /// Writes a number in `width` bits, least significant first.
    pub fn fixed(&mut self, value: u64, width: u32) -> Result<(), NoMemory>
        requires width { width ≤ 64 }
        requires value { value < 2 ^ width }
        ensures ok { OnOk result (writing self.new ≡ with_bits (bits width value) (writing self.old)) }
        ensures err { OnErr result (writing self.new ≡ writing self.old) }
    {
        self.buffer.push_bits(value, width)
    }

    /// Writes a number in groups of `width` bits, the lowest first: the top bit of each but the last
    /// is set, and the bits below it are the number's. There are no more groups than needed.
    pub fn vbr(&mut self, value: u64, width: u32) -> Result<(), NoMemory>
        requires low { 2 ≤ width }
        requires high { width ≤ 32 }
        ensures ok { OnOk result (writing self.new ≡ with_bits (vbr_bits width value) (writing self.old)) }
        ensures err { OnErr result (writing self.new ≡ writing self.old) }
    {
        let mark = self.buffer.mark();
        match self.buffer.push_vbr(value, width) {
            Ok(()) => Ok(()),
            Err(error) => {
                self.buffer.reset(mark);
                Err(error)
            }
        }
    }

    /// Begins a block, in which ids have `width` bits.
    pub fn enter(&mut self, block: u32, width: u32) -> Result<(), NoMemory>
        requires blocks { length (writing self.old).blocks < 32 }
        requires block { 0 < block }
        requires low { 2 ≤ width }
        requires high { width ≤ 32 }
        ensures ok { OnOk result (writing self.new ≡ entered block width (writing self.old)) }
        ensures wrote { OnOk result ((items : List (ℕ × Seen)) → HasWritten items (writing self.old) → HasWritten (items ++ (length (writing self.old).bits, Enters block) ∷ []) (writing self.new)) }
        ensures err { OnErr result (writing self.new ≡ writing self.old) }
    {
        let mark = self.buffer.mark();
        let length_at = match self.buffer.push_enter(self.width, block, width) {
            Ok(length_at) => length_at,
            Err(error) => {
                self.buffer.reset(mark);
                return Err(error);
            }
        };
        let opened = OpenBlock {
            outer_width: self.width,
            outer_first: self.first,
            length_at,
        };
        if let Err(_) = self.blocks.push(opened) {
            self.buffer.reset(mark);
            return Err(NoMemory);
        }
        self.width = width;
        self.first = self.abbrevs.len();
        Ok(())
    }

    /// Ends the innermost block, and writes its length in words, modulo 2^32, into its beginning.
    pub fn leave(&mut self) -> Result<(), NoMemory>
        requires { 0 < length (writing self.old).blocks }
        ensures ok { OnOk result (EndsBlock (writing self.old) (writing self.new)) }
        ensures wrote { OnOk result ((items : List (ℕ × Seen)) → HasWritten items (writing self.old) → HasWritten (items ++ (length (writing self.old).bits, LeaveBlock) ∷ []) (writing self.new)) }
        ensures depth { OnOk result (length (writing self.new).blocks + 1 ≡ length (writing self.old).blocks) }
        ensures words { OnOk result (length (writing self.new).bits % 32 ≡ 0) }
        ensures err { OnErr result (writing self.new ≡ writing self.old) }
    {
        let block = self.blocks[self.blocks.len() - 1];
        let mark = self.buffer.mark();
        if let Err(error) = self.buffer.push_end(self.width, block.length_at) {
            self.buffer.reset(mark);
            return Err(error);
        }
        self.blocks.pop();
        self.abbrevs.truncate(self.first);
        self.width = block.outer_width;
        self.first = block.outer_first;
        Ok(())
    }

    /// Defines an abbreviation of the open block, and answers its id.
    pub fn define(&mut self, ops: &[AbbrevOp]) -> Result<u64, NoMemory>
        requires inside { 0 < length (writing self.old).blocks }
        requires ops { IsTrue (is_definition ops.now) }
        ensures ok { OnOk result (writing self.new ≡ defined ops.now (writing self.old)) }
        ensures wrote { OnOk result ((items : List (ℕ × Seen)) → HasWritten items (writing self.old) → HasWritten items (writing self.new)) }
        ensures id { IfOk result (λ id. id ≡ next_id (writing self.old)) }
        ensures err { OnErr result (writing self.new ≡ writing self.old) }
    {
        let id = FIRST_APPLICATION_ABBREV + self.abbrevs.len().saturating_sub(self.first) as u64;
        let abbrev = Abbrev::from_slice(self.alloc, ops)?;
        let mark = self.buffer.mark();
        if let Err(error) = self.buffer.push_definition(self.width, ops) {
            self.buffer.reset(mark);
            return Err(error);
        }
        if let Err(_) = self.abbrevs.push(abbrev) {
            self.buffer.reset(mark);
            return Err(NoMemory);
        }
        Ok(id)
    }

    /// Writes a record without an abbreviation.
    pub fn put_rec(&mut self, code: u64, ops: &[u64]) -> Result<(), NoMemory>
        requires { 0 < length (writing self.old).blocks }
        ensures ok { OnOk result (writing self.new ≡ recorded code ops.now (writing self.old)) }
        ensures wrote { OnOk result ((items : List (ℕ × Seen)) → HasWritten items (writing self.old) → HasWritten (items ++ (length (writing self.old).bits, Record code ops.now None) ∷ []) (writing self.new)) }
        ensures err { OnErr result (writing self.new ≡ writing self.old) }
    {
        let mark = self.buffer.mark();
        match self.buffer.push_record(self.width, code, ops) {
            Ok(()) => Ok(()),
            Err(error) => {
                self.buffer.reset(mark);
                Err(error)
            }
        }
    }

    /// Writes a record by an abbreviation of the open block that has a literal and a blob.
    pub fn put_blob(&mut self, id: u64, blob: &[u8]) -> Result<(), NoMemory>
        requires inside { 0 < length (writing self.old).blocks }
        requires id { IsBlobId id (writing self.old) }
        requires fits { id < 2 ^ (writing self.old).width }
        ensures ok { OnOk result (writing self.new ≡ with_blob id blob.now (writing self.old)) }
        ensures wrote { OnOk result ((items : List (ℕ × Seen)) (code : ℕ) → IsBlobCode id code (writing self.old) → HasWritten items (writing self.old) → HasWritten (items ++ (length (writing self.old).bits, Record code [] (Some blob.now)) ∷ []) (writing self.new)) }
        ensures err { OnErr result (writing self.new ≡ writing self.old) }
    {
        let mark = self.buffer.mark();
        match self.buffer.push_blob(self.width, id, blob) {
            Ok(()) => Ok(()),
            Err(error) => {
                self.buffer.reset(mark);
                Err(error)
            }
        }
    }

    /// The bytes, outside all blocks and at the end of a word. Takes no memory.
    pub fn into_bytes(self) -> Text
        requires outside { length (writing self).blocks ≡ 0 }
        requires whole { length (writing self).bits % 32 ≡ 0 }
        ensures bits { bits_of result ≡ (writing self).bits }
        ensures stands { (items : List (ℕ × Seen)) → HasWritten items (writing self) → StandFor result items }
        ensures read_back { (items : List (ℕ × Seen)) → HasWritten items (writing self) → items_in result ≡ (items, None) }
    {
        let BitWriter { buffer, .. } = self;
        buffer.into_bytes()
    }
}
