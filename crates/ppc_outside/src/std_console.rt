// Standard output as a console. It tells nothing of what was printed.
ghost use Rattle.std.specs.Prelude.{◌≡◌};
ghost use Rattle.ppc_outside.specs.System.{std_state};

use crate::outside::{Console, OutsideError};
use crate::transfer::write_whole;
use std::io;

/// Standard output, under any runtime that prints. It counts its errors.
#[derive(Drop)]
pub struct StdConsole<R: Print + Drop> {
    rt: R,
    faults: u64,
}

impl<R: Print + Drop> StdConsole<R> {
    /// A console that has had no error.
    pub fn new(rt: R) -> StdConsole<R>
        ensures { (std_state result).faults ≡ 0 }
    {
        StdConsole { rt, faults: 0 }
    }
}

impl<R: Print + Drop> Console for StdConsole<R> {
    ghost state = { λ c. std_state c };

    fn put(&mut self, bytes: &[u8]) -> Result<(), OutsideError> {
        if write_whole(&mut io::writer(&self.rt), bytes) {
            Ok(())
        } else {
            self.faults = self.faults.saturating_add(1);
            Err(OutsideError::Failed)
        }
    }
}
