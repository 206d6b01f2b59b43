//! Lists of numbers and of operands, read one by one, so that no claimed length makes a growth.

ghost use Rattle.std.specs.Prelude.{◌≡◌, ◌≤◌, ◌+◌, length, All, Ok, IfOk, OnSome, IsTrue, true, false};
ghost use Rattle.bitstream.specs.declared.item.AbbrevOp.TheVariants.{Vbr};
ghost use Rattle.bitstream.specs.Cursor.{here};
ghost use Rattle.bitstream.specs.Fields.{Gives};
ghost use Rattle.bitstream.specs.Stream.{has_width, numbers_at, prefixed, op_at, encoded_at, may_stand as may_stand_lem, is_array as is_array_lem, is_blob as is_blob_lem, array_at, values_at, behind_numbers, GivesValues, ops_at, definition_at, GivesList, GivesInto};

use crate::codes::{
    ABBREV_WIDTH, ENCODING_ARRAY, ENCODING_BLOB, ENCODING_CHAR6, ENCODING_FIXED, ENCODING_VBR,
    ENCODING_WIDTH, LITERAL_WIDTH, MOST_FIXED_WIDTH, MOST_VBR_WIDTH, RECORD_WIDTH,
};
use crate::cursor::Cursor;
use crate::{AbbrevOp, BitFault};
use arrayvec::ArrayVec;
use std::alloc::Global;

pub fn is_array(op: AbbrevOp) -> bool
    ensures { result ≡ is_array_lem op }
{
    match op {
        AbbrevOp::Array => true,
        _ => false,
    }
}

pub fn is_blob(op: AbbrevOp) -> bool
    ensures { result ≡ is_blob_lem op }
{
    match op {
        AbbrevOp::Blob => true,
        _ => false,
    }
}

/// Whether an operand may stand where `more` stand behind it.
fn may_stand(first: bool, in_array: bool, more: u64, op: AbbrevOp) -> bool
    ensures { result ≡ may_stand_lem first in_array more op }
{
    if in_array {
        return match op {
            AbbrevOp::Fixed(width) => 0 < width,
            AbbrevOp::Vbr(width) => 0 < width,
            AbbrevOp::Char6 => true,
            _ => false,
        };
    }
    match op {
        AbbrevOp::Array => !first && more == 1,
        AbbrevOp::Blob => !first && more == 0,
        _ => true,
    }
}

impl<'b> Cursor<'b> {
    /// Numbers that are written alike, put behind those that were read before.
    pub fn numbers(
        &mut self,
        count: u64,
        op: AbbrevOp,
        values: &mut Vec<u64>,
    ) -> Result<(), BitFault>
        requires { IsTrue (has_width op) }
        ensures { GivesInto (here self.new) values.new.items result (prefixed values.old.items (numbers_at count op (here self.old))) }
    {
        let mut i = 0u64;
        'each: while i < count {
            let number = match self.scalar(op) {
                Ok(number) => number,
                Err(fault) => return Err(fault),
            };
            if let Err(_) = values.push(number) {
                return Err(BitFault::NoMemory);
            }
            i += 1;
        }
        Ok(())
    }

    /// A few numbers in groups of six bits, where the eight bytes from each on have it, put behind
    /// those that were read before.
    #[inline(always)]
    pub fn quick_numbers(&mut self, count: u64, values: &mut ArrayVec<u64, 4>) -> Option<()>
        requires { length values.old.items + count ≤ 4 }
        ensures { OnSome result (prefixed values.old.items (numbers_at count (Vbr 6) (here self.old)) ≡ Ok (values.new.items, here self.new)) }
    {
        let mut i = 0u64;
        'each: while i < count {
            let number = match self.quick_vbr() {
                Some(number) => number,
                None => return None,
            };
            values.push(number);
            i += 1;
        }
        Some(())
    }

    /// A length, and as many numbers, each written as the first operand says.
    #[tactic(auto, unfolding(crate::specs::Stream::array_at))]
    fn array(&mut self, ops: &[AbbrevOp], values: &mut Vec<u64>) -> Result<(), BitFault>
        requires { All (λ op. IsTrue (has_width op)) ops.now }
        ensures { GivesInto (here self.new) values.new.items result (prefixed values.old.items (array_at ops.now (here self.old))) }
    {
        let count = self.vbr(RECORD_WIDTH)?;
        let element = match ops.first() {
            Some(&op) => op,
            None => AbbrevOp::Char6,
        };
        self.numbers(count, element, values)
    }

    /// What a record by an abbreviation has: its numbers, put behind others, and its blob.
    pub fn values(
        &mut self,
        ops: &[AbbrevOp],
        values: &mut Vec<u64>,
    ) -> Result<Option<&'b [u8]>, BitFault>
        requires { All (λ op. IsTrue (has_width op)) ops.now }
        ensures { GivesValues (here self.new) values.new.items result (behind_numbers values.old.items (values_at ops.now (here self.old))) }
    {
        let mut i = 0;
        'each: while i < ops.len() {
            let op = ops[i];
            if is_array(op) {
                let (_, behind) = ops.split_at(i + 1);
                return match self.array(behind, values) {
                    Ok(()) => Ok(None),
                    Err(fault) => Err(fault),
                };
            }
            if is_blob(op) {
                return match self.blob() {
                    Ok(blob) => Ok(Some(blob)),
                    Err(fault) => Err(fault),
                };
            }
            let number = match self.scalar(op) {
                Ok(number) => number,
                Err(fault) => return Err(fault),
            };
            if let Err(_) = values.push(number) {
                return Err(BitFault::NoMemory);
            }
            i += 1;
        }
        Ok(None)
    }

    #[tactic(auto, unfolding(crate::specs::Stream::encoded_at))]
    fn encoded(&mut self, entered: u128, at: u128, encoding: u64) -> Result<AbbrevOp, BitFault>
        ensures read { Gives (here self.new) result (encoded_at entered at encoding (here self.old)) }
        ensures width { IfOk result (λ op. IsTrue (has_width op)) }
    {
        if encoding == ENCODING_FIXED {
            let width = self.vbr(ABBREV_WIDTH)?;
            if width > MOST_FIXED_WIDTH as u64 {
                return Err(BitFault::BadOperands { at: entered });
            }
            return Ok(AbbrevOp::Fixed(width as u32));
        }
        if encoding == ENCODING_VBR {
            let width = self.vbr(ABBREV_WIDTH)?;
            if width == 1 {
                return Err(BitFault::BadOperands { at: entered });
            }
            if width > MOST_VBR_WIDTH as u64 {
                return Err(BitFault::BadOperands { at: entered });
            }
            return Ok(AbbrevOp::Vbr(width as u32));
        }
        if encoding == ENCODING_ARRAY {
            return Ok(AbbrevOp::Array);
        }
        if encoding == ENCODING_CHAR6 {
            return Ok(AbbrevOp::Char6);
        }
        if encoding == ENCODING_BLOB {
            return Ok(AbbrevOp::Blob);
        }
        Err(BitFault::BadEncoding { at, code: encoding })
    }

    /// One operand of a definition that began at the bit `entered`.
    #[tactic(auto, unfolding(crate::specs::Stream::op_at))]
    fn op(&mut self, entered: u128) -> Result<AbbrevOp, BitFault>
        ensures read { Gives (here self.new) result (op_at entered (here self.old)) }
        ensures width { IfOk result (λ op. IsTrue (has_width op)) }
    {
        let flag = self.fixed(1)?;
        if flag == 1 {
            let value = self.vbr(LITERAL_WIDTH)?;
            return Ok(AbbrevOp::Literal(value));
        }
        let at = self.at();
        let encoding = self.fixed(ENCODING_WIDTH)?;
        self.encoded(entered, at, encoding)
    }

    fn ops(&mut self, alloc: Global, entered: u128, count: u64) -> Result<Vec<AbbrevOp>, BitFault>
        ensures read { GivesList (here self.new) result (ops_at entered count true false (here self.old)) }
        ensures widths { IfOk result (λ ops. All (λ op. IsTrue (has_width op)) ops.items) }
    {
        let mut ops = Vec::new(alloc);
        let mut in_array = false;
        let mut i = 0u64;
        'each: while i < count {
            let op = match self.op(entered) {
                Ok(op) => op,
                Err(fault) => return Err(fault),
            };
            if !may_stand(i == 0, in_array, count - i - 1, op) {
                return Err(BitFault::BadOperands { at: entered });
            }
            in_array = is_array(op);
            if let Err(_) = ops.push(op) {
                return Err(BitFault::NoMemory);
            }
            i += 1;
        }
        Ok(ops)
    }

    /// The operands of a definition that began at the bit `entered`, behind its id.
    #[tactic(auto, unfolding(crate::specs::Stream::definition_at))]
    pub fn definition(&mut self, alloc: Global, entered: u128) -> Result<Vec<AbbrevOp>, BitFault>
        ensures read { GivesList (here self.new) result (definition_at entered (here self.old)) }
        ensures widths { IfOk result (λ ops. All (λ op. IsTrue (has_width op)) ops.items) }
    {
        let count = self.vbr(ABBREV_WIDTH)?;
        if count == 0 {
            return Err(BitFault::BadOperands { at: entered });
        }
        self.ops(alloc, entered, count)
    }
}
