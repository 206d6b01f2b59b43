ghost use Rattle.std.specs.Prelude.{◌≡◌, IfOk};

use crate::AbbrevOp;
use std::alloc::{AllocError, Global};
use std::marker::Model;

/// The operands of an abbreviation, which contracts see as their list.
#[derive(Drop)]
pub struct Abbrev {
    ops: Vec<AbbrevOp>,
}

impl Model for Abbrev {
    ghost use Rattle.std.specs.Prelude.{List};
    ghost use Rattle.bitstream.specs.declared.item.AbbrevOp.{AbbrevOp};

    ghost Value = { List AbbrevOp };

    ghost view = { λ a. a.ops.items };
}

impl Abbrev {
    pub fn from_slice(alloc: Global, ops: &[AbbrevOp]) -> Result<Abbrev, AllocError>
        ensures { IfOk result (λ made. made ≡ ops.now) }
    {
        let ops = ops.to_vec(alloc)?;
        Ok(Abbrev { ops })
    }
}
