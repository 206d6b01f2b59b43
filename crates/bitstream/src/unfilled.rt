//! The numbers of a record, with those that take no bits among them, one by one.

ghost use Rattle.std.specs.Prelude.{◌≡◌, ◌∷◌, [], IfSome, IfNone};
ghost use Rattle.bitstream.specs.Sparse.{filled, free_number as free_number_lem};

use crate::AbbrevOp;
use crate::definition::takes_bits;
use crate::lists::{is_array, is_blob};

/// The operands whose numbers are left, and the numbers that take bits.
#[derive(Clone, Copy)]
pub struct Unfilled<'a> {
    ops: &'a [AbbrevOp],
    in_bits: &'a [u64],
}

/// The number of an operand that takes no bits.
fn free_number(op: AbbrevOp) -> u64
    ensures { result ≡ free_number_lem op }
{
    match op {
        AbbrevOp::Literal(number) => number,
        _ => 0,
    }
}

impl<'a> Unfilled<'a> {
    pub fn new(ops: &'a [AbbrevOp], in_bits: &'a [u64]) -> Unfilled<'a>
        ensures { filled result.ops.now result.in_bits.now ≡ filled ops.now in_bits.now }
    {
        Unfilled { ops, in_bits }
    }

    /// The first of the numbers that are left.
    pub fn next(&mut self) -> Option<u64>
        ensures some { IfSome result (λ number. filled self.old.ops.now self.old.in_bits.now ≡ number ∷ filled self.new.ops.now self.new.in_bits.now) }
        ensures none { IfNone result (filled self.old.ops.now self.old.in_bits.now ≡ []) }
    {
        match self.ops {
            [op, ops @ ..] => {
                if is_array(*op) || is_blob(*op) {
                    return self.next_in_bits();
                }
                if takes_bits(*op) {
                    let number = self.next_in_bits()?;
                    self.ops = ops;
                    return Some(number);
                }
                self.ops = ops;
                Some(free_number(*op))
            }
            [] => None,
        }
    }

    /// The first of the numbers that take bits.
    fn next_in_bits(&mut self) -> Option<u64>
        ensures some { IfSome result (λ number. self.old.in_bits.now ≡ number ∷ self.new.in_bits.now) }
        ensures none { IfNone result (self.old.in_bits.now ≡ []) }
        ensures ops { self.new.ops ≡ self.old.ops }
    {
        match self.in_bits {
            [number, more @ ..] => {
                self.in_bits = more;
                Some(*number)
            }
            [] => None,
        }
    }
}
