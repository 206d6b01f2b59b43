ghost use Rattle.std.specs.Prelude.{None};

use drv_outside::{Fault, Sink, counted_fault};
use std::io;
use std::io::Write;

/// Standard output as a sink. It tells its count of faults alone.
#[derive(Drop)]
pub struct Output<R: Print + Drop> {
    rt: R,
    faults: u64,
}

impl<R: Print + Drop> Output<R> {
    pub fn new(rt: R) -> Self {
        Output { rt, faults: 0 }
    }
}

impl<R: Print + Drop> Sink for Output<R> {
    ghost contents = { λ _. None };

    ghost faults = { λ out. out.faults };

    fn put(&mut self, bytes: &[u8]) -> Result<(), Fault> {
        let mut writer = io::writer(&self.rt);
        if writer.write_all(bytes).is_ok() && writer.flush().is_ok() {
            return Ok(());
        }
        self.faults = counted_fault(self.faults);
        Err(Fault)
    }
}
