//! Code in the making.

ghost use Rattle.std.specs.Prelude.{◌≡◌, ◌+◌, ◌<◌, ◌^◌, [], IfOk, OnOk};
ghost use Rattle.object_emit.specs.Pieces.{behind, one};

use crate::Instruction;
use dep_key::NoMemory;
use std::alloc::Global;
use std::marker::Model;

/// The instructions of a function so far, and the number of its next label.
#[derive(Drop)]
pub struct Emitter {
    code: Vec<Instruction>,
    next: u64,
}

impl Model for Emitter {
    ghost use Rattle.object_emit.specs.Pieces.{Emitted};

    ghost Value = { Emitted };

    ghost view = { λ e. record { code = e.code.items; next = e.next } };
}

impl Emitter {
    /// Nothing is emitted yet, and labels count from 0.
    pub fn new(alloc: Global) -> Emitter
        ensures { result ≡ record { code = []; next = 0 } }
    {
        Emitter {
            code: Vec::new(alloc),
            next: 0,
        }
    }

    /// Puts an instruction behind the others.
    pub fn push(&mut self, instruction: Instruction) -> Result<(), NoMemory>
        ensures { OnOk result (self.new ≡ behind self.old (one instruction)) }
    {
        self.code.push(instruction)?;
        Ok(())
    }

    /// Takes labels, and gives the number of the first. Numbers of 2^64 and more have no room.
    pub fn take_labels(&mut self, count: u64) -> Result<u64, NoMemory>
        ensures first { IfOk result (λ n. n ≡ self.old.next) }
        ensures room { IfOk result (λ n. n + count < 2 ^ 64) }
        ensures next { OnOk result (self.new ≡ record { code = self.old.code; next = self.old.next + count }) }
    {
        let first = self.next;
        if count > u64::MAX - first {
            return Err(NoMemory);
        }
        self.next = first + count;
        Ok(first)
    }

    /// The instructions, which takes no memory.
    pub fn into_code(self) -> Vec<Instruction>
        ensures { result.items ≡ self.code }
    {
        let Emitter { code, .. } = self;
        code
    }
}
