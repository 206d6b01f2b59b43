ghost use Rattle.std.specs.Prelude.{◌≡◌, ◌≤◌, length, drop, IfSome, IfNone, IfOk};
ghost use Rattle.bitstream.specs.Sparse.{filled};
ghost use Rattle.bitstream.specs.declared.definition.TheConstants.{MOST_COPIED};

use crate::NoMemory;
use crate::definition::Definition;
use crate::unfilled::Unfilled;
use arrayvec::ArrayVec;
use std::alloc::Global;
use std::marker::Model;

/// The operands of a record.
///
/// Contracts see them as a list of numbers.
#[derive(Debug, Drop)]
pub struct Operands {
    numbers: Numbers,
}

/// Numbers, which take no memory where they are few, and share those that take no bits where these
/// are many.
#[derive(Debug, Drop)]
enum Numbers {
    Few(ArrayVec<u64, 4>),
    Many(Vec<u64>),
    Shared(SharedNumbers),
}

/// The numbers of a record behind its code: its definition, and those that take bits, with the code
/// where that does.
#[derive(Debug, Drop)]
struct SharedNumbers {
    definition: Definition,
    in_bits: Vec<u64>,
    ghost many: { MOST_COPIED ≤ length (drop 1 (filled definition in_bits.items)) },
}

impl SharedNumbers {
    fn to_vec(&self, alloc: Global) -> Result<Vec<u64>, NoMemory>
        ensures { IfOk result (λ numbers. numbers.items ≡ drop 1 (filled self.now.definition self.now.in_bits.items)) }
    {
        let mut left = Unfilled::new(self.definition.as_slice(), self.in_bits.as_slice());
        left.next();
        let mut numbers = Vec::new(alloc);
        'each: while let Some(number) = left.next() {
            numbers.push(number)?;
        }
        Ok(numbers)
    }
}

impl Model for Operands {
    ghost use Rattle.std.specs.Prelude.{List, ℕ};
    ghost use Rattle.bitstream.specs.Operands.{numbers_in};

    ghost Value = { List ℕ };

    ghost view = { λ t. numbers_in t.numbers };
}

impl Operands {
    /// The numbers of a vector, which takes no memory.
    pub fn from_vec(numbers: Vec<u64>) -> Operands
        ensures { result ≡ numbers.items }
    {
        Operands {
            numbers: Numbers::Many(numbers),
        }
    }

    #[inline(always)]
    pub(crate) fn from_few(numbers: ArrayVec<u64, 4>) -> Operands
        ensures { result ≡ numbers.items }
    {
        Operands {
            numbers: Numbers::Few(numbers),
        }
    }

    /// The numbers of a record by this definition, behind its code, of which these take bits.
    pub(crate) fn from_shared(definition: Definition, in_bits: Vec<u64>) -> Operands
        requires { MOST_COPIED ≤ length (drop 1 (filled definition in_bits.items)) }
        ensures { result ≡ drop 1 (filled definition in_bits.items) }
    {
        Operands {
            numbers: Numbers::Shared(SharedNumbers {
                definition,
                in_bits,
            }),
        }
    }

    /// The numbers as a slice. None where many of them take no bits, and so cost nothing until
    /// they are asked for; then there are at least `MOST_COPIED`.
    #[inline(always)]
    pub fn as_slice(&self) -> Option<&[u64]>
        ensures some { IfSome result (λ numbers. numbers.now ≡ self.now) }
        ensures none { IfNone result (MOST_COPIED ≤ length self.now) }
    {
        match &self.numbers {
            Numbers::Few(numbers) => Some(numbers.as_slice()),
            Numbers::Many(numbers) => Some(numbers.as_slice()),
            Numbers::Shared(_) => None,
        }
    }

    /// The numbers, however many there are.
    pub fn to_vec(&self, alloc: Global) -> Result<Vec<u64>, NoMemory>
        ensures { IfOk result (λ numbers. numbers.items ≡ self.now) }
    {
        match &self.numbers {
            Numbers::Few(numbers) => {
                let numbers = Vec::from_slice(alloc, numbers.as_slice())?;
                Ok(numbers)
            }
            Numbers::Many(numbers) => {
                let numbers = Vec::from_slice(alloc, numbers.as_slice())?;
                Ok(numbers)
            }
            Numbers::Shared(numbers) => numbers.to_vec(alloc),
        }
    }
}
