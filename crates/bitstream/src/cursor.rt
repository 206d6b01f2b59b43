//! A place in the input, and the fields that stand there.

ghost use Rattle.std.specs.Prelude.{◌≡◌, ◌≤◌, ◌*◌, ◌+◌, ◌-◌, ◌^◌, ◌<◌, ◌%◌, length, Ok, IfOk, IfSome, OnOk, IsTrue};
ghost use Rattle.bitstream.specs.Fields.{fixed_at, vbr_at, Gives, bytes_seen};
ghost use Rattle.bitstream.specs.Stream.{HasHead, align_at, bytes_at, blob_at, char6, has_width, scalar_at, opened_at};

use crate::codes::{
    BLOCK_ID_WIDTH, BLOCK_SIZE_WIDTH, CHAR6_CHARACTERS, CHAR6_WIDTH, CODE_LEN_WIDTH,
    LEAST_ID_WIDTH, MOST_ID_WIDTH, RECORD_WIDTH, WORD_BITS,
};
use crate::field::{Head, fixed_field, near_field, near_head, vbr_field};
use crate::slice::bytes_field;
use crate::{AbbrevOp, BitFault};

/// A place in the input.
#[derive(Clone, Copy)]
pub struct Cursor<'b> {
    bytes: &'b [u8],
    at: u128,
    ghost within: { at ≤ 8 * length bytes.now },
}

/// What the beginning of a block says: its number, the width of its ids, the bit behind its length
/// field, and the length in words.
#[derive(Clone, Copy)]
pub struct Opened {
    pub block: u32,
    pub width: u32,
    pub begins: u128,
    pub said: u32,
}

/// The character that six bits stand for.
#[tactic(auto, unfolding(crate::specs::Stream::char6))]
fn character(number: u64) -> u64
    requires { number < 64 }
    ensures { result ≡ char6 number }
{
    CHAR6_CHARACTERS[number as usize] as u64
}

impl<'b> Cursor<'b> {
    ghost use Rattle.bitstream.specs.Cursor.{here};

    pub fn new(bytes: &'b [u8]) -> Cursor<'b>
        ensures bytes { result.bytes.now ≡ bytes.now }
        ensures at { result.at ≡ 0 }
    {
        Cursor { bytes, at: 0 }
    }

    pub fn at(&self) -> u128
        ensures { result ≡ (here self.now).at }
    {
        self.at
    }

    pub fn left(&self) -> u128
        ensures bits { result ≡ length (here self.now).bits }
        ensures count { result ≡ 8 * length self.now.bytes.now - self.now.at }
        ensures bound { result < 2 ^ 80 }
    {
        8 * self.bytes.len() as u128 - self.at
    }

    #[inline(always)]
    pub fn fixed(&mut self, width: u32) -> Result<u64, BitFault>
        requires { width ≤ 64 }
        ensures read { Gives (here self.new) result (fixed_at width (here self.old)) }
        ensures value { IfOk result (λ v. v < 2 ^ width) }
    {
        match fixed_field(self.bytes, self.at, width) {
            Ok(value) => {
                self.at += width as u128;
                Ok(value)
            }
            Err(fault) => Err(fault),
        }
    }

    #[inline(always)]
    pub fn vbr(&mut self, width: u32) -> Result<u64, BitFault>
        requires { width ≤ 32 }
        ensures { Gives (here self.new) result (vbr_at width (here self.old)) }
    {
        match vbr_field(self.bytes, self.at, width) {
            Ok((value, behind)) => {
                self.at = behind;
                Ok(value)
            }
            Err(fault) => Err(fault),
        }
    }

    /// What stands before the operands of a record, behind which the cursor then stands.
    #[inline(always)]
    pub fn quick_head(&mut self, width: u32) -> Option<Head>
        requires { width ≤ 32 }
        ensures { IfSome result (λ head. HasHead width (here self.old) head.id head.code head.count (here self.new)) }
    {
        match near_head(self.bytes, self.at, width) {
            Some(head) => {
                self.at += (width + 2 * RECORD_WIDTH) as u128;
                Some(head)
            }
            None => None,
        }
    }

    /// A number in groups of six bits, where the eight bytes from it on have it.
    #[inline(always)]
    pub fn quick_vbr(&mut self) -> Option<u64>
        ensures { IfSome result (λ v. vbr_at 6 (here self.old) ≡ Ok (v, here self.new)) }
    {
        match near_field(self.bytes, self.at, RECORD_WIDTH) {
            Some((value, behind)) => {
                self.at = behind;
                Some(value)
            }
            None => None,
        }
    }

    #[tactic(auto, unfolding(crate::specs::Stream::align_at))]
    pub fn align(&mut self) -> Result<(), BitFault>
        ensures read { Gives (here self.new) result (align_at (here self.old)) }
        ensures word { OnOk result (self.new.at % 32 ≡ 0) }
    {
        let word = WORD_BITS as u128;
        let pad = (word - self.at % word) % word;
        if self.left() < pad {
            return Err(BitFault::Short { at: self.at });
        }
        self.at += pad;
        Ok(())
    }

    /// A slice of the input, at a whole byte.
    fn bytes(&mut self, len: u64) -> Result<&'b [u8], BitFault>
        requires { self.old.at % 8 ≡ 0 }
        ensures { Gives (here self.new) (bytes_seen result) (bytes_at len (here self.old)) }
    {
        match bytes_field(self.bytes, self.at, len) {
            Ok(found) => {
                self.at += 8 * len as u128;
                Ok(found)
            }
            Err(fault) => Err(fault),
        }
    }

    /// A length, and as many bytes between two alignments.
    #[tactic(auto, unfolding(crate::specs::Stream::blob_at))]
    pub fn blob(&mut self) -> Result<&'b [u8], BitFault>
        ensures { Gives (here self.new) (bytes_seen result) (blob_at (here self.old)) }
    {
        let len = self.vbr(RECORD_WIDTH)?;
        self.align()?;
        let blob = self.bytes(len)?;
        self.align()?;
        Ok(blob)
    }

    /// A number that an operand of an abbreviation stands for; none stands for an array or a blob.
    #[inline(always)]
    #[tactic(auto, unfolding(crate::specs::Stream::scalar_at))]
    pub fn scalar(&mut self, op: AbbrevOp) -> Result<u64, BitFault>
        requires { IsTrue (has_width op) }
        ensures { Gives (here self.new) result (scalar_at op (here self.old)) }
    {
        match op {
            AbbrevOp::Literal(value) => Ok(value),
            AbbrevOp::Fixed(width) => self.fixed(width),
            AbbrevOp::Vbr(width) => self.vbr(width),
            AbbrevOp::Char6 => {
                let number = self.fixed(CHAR6_WIDTH)?;
                Ok(character(number))
            }
            AbbrevOp::Array => Ok(0),
            AbbrevOp::Blob => Ok(0),
        }
    }

    /// The beginning of a block, behind its id at the bit `entered`.
    #[tactic(auto, unfolding(crate::specs::Stream::opened_at))]
    pub fn opened(&mut self, entered: u128) -> Result<Opened, BitFault>
        ensures read { Gives (here self.new) result (opened_at entered (here self.old)) }
        ensures width { IfOk result (λ opened. opened.width ≤ 32) }
    {
        let block = self.vbr(BLOCK_ID_WIDTH)?;
        if block >= 4294967296 {
            return Err(BitFault::BadOperands { at: entered });
        }
        let width = self.vbr(CODE_LEN_WIDTH)?;
        if width < LEAST_ID_WIDTH as u64 || width > MOST_ID_WIDTH as u64 {
            return Err(BitFault::BadOperands { at: entered });
        }
        self.align()?;
        let said = self.fixed(BLOCK_SIZE_WIDTH)?;
        if self.left() < WORD_BITS as u128 * said as u128 {
            return Err(BitFault::BadBlockLength { at: entered, said });
        }
        Ok(Opened {
            block: block as u32,
            width: width as u32,
            begins: self.at,
            said: said as u32,
        })
    }
}
