//! The entries of a bitstream, added to the bits before them.

ghost use Rattle.std.specs.Prelude.{◌≡◌, ◌≤◌, ◌*◌, ◌+◌, ◌%◌, ◌^◌, ◌<◌, length, OnOk, OnErr, IfOk};
ghost use Rattle.bitstream.specs.Buffer.{bits_in};
ghost use Rattle.bitstream.specs.Writing.{Grows};
ghost use Rattle.bitstream.specs.Written.{OperandsFit};
ghost use Rattle.bitstream.specs.Entries.{end_bits, enter_bits, definition_bits, record_bits, blob_bits};

use crate::buffer::BitBuffer;
use crate::codes::{
    ABBREV_WIDTH, BLOCK_ID_WIDTH, BLOCK_SIZE_WIDTH, CODE_LEN_WIDTH, DEFINE_ABBREV, END_BLOCK,
    ENTER_SUBBLOCK, RECORD_WIDTH, UNABBREV_RECORD,
};
use crate::packed::Packed;
use crate::{AbbrevOp, NoMemory};

impl BitBuffer {
    /// The end of a block whose length field begins at the byte `at`.
    #[tactic(auto, unfolding(crate::specs::Entries::end_bits))]
    pub fn push_end(&mut self, id_width: u32, at: usize) -> Result<(), NoMemory>
        requires width { id_width ≤ 32 }
        requires at { at + 4 ≤ length self.old.bytes.items }
        ensures ok { OnOk result (bits_in self.new ≡ end_bits id_width (8 * at) (bits_in self.old)) }
        ensures words { OnOk result (length (bits_in self.new) % 32 ≡ 0) }
        ensures len { OnOk result (length self.old.bytes.items ≤ length self.new.bytes.items) }
        ensures kept { OnErr result (Grows self.old.bytes.items self.new.bytes.items) }
    {
        self.push_bits(END_BLOCK, id_width)?;
        self.align()?;
        let words = (self.len() - at - 4) / 4;
        self.set_field(at, (words & 0xffff_ffff) as u32);
        Ok(())
    }

    /// The beginning of a block. Answers the byte at which its length field begins.
    #[tactic(auto, unfolding(crate::specs::Entries::enter_bits))]
    pub fn push_enter(&mut self, id_width: u32, block: u32, width: u32) -> Result<usize, NoMemory>
        requires low { 2 ≤ id_width }
        requires high { id_width ≤ 32 }
        ensures ok { OnOk result (bits_in self.new ≡ enter_bits id_width block width (bits_in self.old)) }
        ensures at { IfOk result (λ at. length (enter_bits id_width block width (bits_in self.old)) ≡ 8 * at + 32) }
        ensures field { IfOk result (λ at. at + 4 ≤ length self.new.bytes.items) }
        ensures kept { Grows self.old.bytes.items self.new.bytes.items }
    {
        self.push_bits(ENTER_SUBBLOCK, id_width)?;
        self.push_vbr(block as u64, BLOCK_ID_WIDTH)?;
        self.push_vbr(width as u64, CODE_LEN_WIDTH)?;
        self.align()?;
        let at = self.len();
        self.push_bits(0, BLOCK_SIZE_WIDTH)?;
        Ok(at)
    }

    #[tactic(auto, unfolding(crate::specs::Entries::definition_bits))]
    pub fn push_definition(&mut self, id_width: u32, ops: &[AbbrevOp]) -> Result<(), NoMemory>
        requires low { 2 ≤ id_width }
        requires high { id_width ≤ 32 }
        ensures ok { OnOk result (bits_in self.new ≡ definition_bits id_width ops.now (bits_in self.old)) }
        ensures fit { OnOk result (OperandsFit ops.now) }
        ensures count { OnOk result (length ops.now < 2 ^ 64) }
        ensures kept { Grows self.old.bytes.items self.new.bytes.items }
    {
        self.push_bits(DEFINE_ABBREV, id_width)?;
        self.push_vbr(ops.len() as u64, ABBREV_WIDTH)?;
        self.push_ops(ops)
    }

    #[tactic(auto, unfolding(crate::specs::Entries::record_bits))]
    pub fn push_record(&mut self, id_width: u32, code: u64, ops: &[u64]) -> Result<(), NoMemory>
        requires low { 2 ≤ id_width }
        requires high { id_width ≤ 32 }
        ensures ok { OnOk result (bits_in self.new ≡ record_bits id_width code ops.now (bits_in self.old)) }
        ensures count { OnOk result (length ops.now < 2 ^ 64) }
        ensures kept { Grows self.old.bytes.items self.new.bytes.items }
    {
        let packed = Packed::new(UNABBREV_RECORD, id_width);
        let packed = self.pack_vbr(packed, code, RECORD_WIDTH)?;
        let packed = self.pack_vbr(packed, ops.len() as u64, RECORD_WIDTH)?;
        let packed = self.pack_vbrs(packed, ops, RECORD_WIDTH)?;
        self.push_packed(packed)?;
        Ok(())
    }

    /// A record by an abbreviation that has a blob behind literals.
    #[tactic(auto, unfolding(crate::specs::Entries::blob_bits))]
    pub fn push_blob(&mut self, id_width: u32, id: u64, blob: &[u8]) -> Result<(), NoMemory>
        requires width { id_width ≤ 32 }
        requires id { id < 2 ^ id_width }
        ensures ok { OnOk result (bits_in self.new ≡ blob_bits id_width id blob.now (bits_in self.old)) }
        ensures count { OnOk result (length blob.now < 2 ^ 64) }
        ensures kept { Grows self.old.bytes.items self.new.bytes.items }
    {
        self.push_bits(id, id_width)?;
        self.push_vbr(blob.len() as u64, RECORD_WIDTH)?;
        self.align()?;
        self.push_bytes(blob)?;
        self.align()
    }
}
