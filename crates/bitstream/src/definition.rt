//! Definitions that were read. Records with many numbers that take no bits share theirs.

ghost use Rattle.std.specs.Prelude.{◌≡◌, ◌-◌, length, nat_lt, All, IsTrue, IfOk, OnOk};
ghost use Rattle.bitstream.specs.Stream.{has_width, is_array as is_array_lem, is_blob as is_blob_lem};
ghost use Rattle.bitstream.specs.Sparse.{takes_bits as takes_bits_lem, ops_in_bits};
ghost use Rattle.bitstream.specs.declared.definition.TheConstants.{MOST_COPIED};

use crate::lists::{is_array, is_blob};
use crate::{AbbrevOp, NoMemory};
use std::alloc::Global;
use std::marker::Model;
use std::rc::Rc;

/// How many numbers that take no bits are copied into a record; where there are more, the record
/// shares its definition.
pub const MOST_COPIED: usize = 8;

/// The operands of a definition, and those of them that take bits in a record.
#[derive(Debug, Drop)]
struct Parts {
    ops: Vec<AbbrevOp>,
    in_bits: Vec<AbbrevOp>,
    ghost widths: { All (λ op. IsTrue (has_width op)) ops.items },
    ghost bits: { in_bits.items ≡ ops_in_bits ops.items },
    ghost in_bits_widths: { All (λ op. IsTrue (has_width op)) in_bits.items },
}

/// The operands of a definition that was read, which contracts see as their list.
#[derive(Debug, Drop)]
pub struct Definition {
    parts: Rc<Parts>,
}

impl Model for Definition {
    ghost use Rattle.std.specs.Prelude.{List, All, IsTrue};
    ghost use Rattle.bitstream.specs.declared.item.AbbrevOp.{AbbrevOp};
    ghost use Rattle.bitstream.specs.Stream.{has_width};

    ghost Value = { List AbbrevOp };

    ghost view = { λ d. d.parts.value.ops.items };

    ghost invariant = { λ d. All (λ op. IsTrue (has_width op)) d.parts.value.ops.items };
}

/// Whether the number of an operand takes bits in a record; an array and a blob do, for their
/// length.
pub fn takes_bits(op: AbbrevOp) -> bool
    ensures { result ≡ takes_bits_lem op }
{
    match op {
        AbbrevOp::Literal(_) => false,
        AbbrevOp::Fixed(width) => 0 < width,
        AbbrevOp::Vbr(width) => 0 < width,
        _ => true,
    }
}

/// The operands that take bits in a record.
fn in_bits_of(alloc: Global, ops: &[AbbrevOp]) -> Result<Vec<AbbrevOp>, NoMemory>
    ensures { IfOk result (λ found. found.items ≡ ops_in_bits ops.now) }
{
    let mut found = Vec::new(alloc);
    let mut i = 0;
    'each: while i < ops.len() {
        let op = ops[i];
        if is_array(op) || is_blob(op) {
            let (_, rest) = ops.split_at(i);
            found.extend_from_slice(rest)?;
            return Ok(found);
        }
        if takes_bits(op) {
            found.push(op)?;
        }
        i += 1;
    }
    Ok(found)
}

impl Definition {
    pub fn from_vec(alloc: Global, ops: Vec<AbbrevOp>) -> Result<Definition, NoMemory>
        requires { All (λ op. IsTrue (has_width op)) ops.items }
        ensures { IfOk result (λ made. made ≡ ops.items) }
    {
        let in_bits = in_bits_of(alloc, ops.as_slice())?;
        match Rc::new(alloc, Parts { ops, in_bits }) {
            Ok(parts) => Ok(Definition { parts }),
            Err(_) => Err(NoMemory),
        }
    }

    /// The same definition once more, which takes no memory.
    pub fn share(&self) -> Result<Definition, NoMemory>
        ensures { IfOk result (λ shared. shared ≡ self.now) }
    {
        match self.parts.clone() {
            Ok(parts) => Ok(Definition { parts }),
            Err(_) => Err(NoMemory),
        }
    }

    pub fn as_slice(&self) -> &[AbbrevOp]
        ensures ops { result.now ≡ self.now }
        ensures widths { All (λ op. IsTrue (has_width op)) result.now }
    {
        &self.parts.ops
    }

    /// The operands that take bits in a record.
    pub fn in_bits(&self) -> &[AbbrevOp]
        ensures ops { result.now ≡ ops_in_bits self.now }
        ensures widths { All (λ op. IsTrue (has_width op)) result.now }
    {
        &self.parts.in_bits
    }

    /// Whether more numbers of a record take no bits than are copied into it.
    pub fn is_sparse(&self) -> bool
        ensures { result ≡ nat_lt MOST_COPIED (length self.now - length (ops_in_bits self.now)) }
    {
        let free = self.as_slice().len().saturating_sub(self.in_bits().len());
        free > MOST_COPIED
    }
}
