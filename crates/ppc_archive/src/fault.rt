// Why the files of a link aren't chosen.
ghost use Rattle.std.specs.Prelude.{◌≡◌};
ghost use Rattle.ppc_archive.specs.declared.fault.ChooseFault.TheVariants.{Memory};

use object_set::Refusal;
use ppc_bytes::Bytes;
use std::alloc::{AllocError, AllocFailed};

/// Why the files of a link aren't chosen.
#[derive(Debug, Drop)]
pub enum ChooseFault {
    /// A file, or the link, is refused.
    Refused {
        /// The name of the file: that of a member is LIBRARY(MEMBER). It is empty where the refusal is of no file.
        name: Bytes,
        /// Why. The number of a file is that of the file that was fetched.
        refusal: Refusal,
    },
    /// Memory was refused.
    Memory,
}

impl From<AllocError> for ChooseFault {
    ghost from_gives = { λ _ fault. fault ≡ Memory };

    fn from(_: AllocError) -> Self {
        ChooseFault::Memory
    }
}

impl<T: Drop> From<AllocFailed<T>> for ChooseFault {
    ghost from_gives = { λ _ fault. fault ≡ Memory };

    fn from(_: AllocFailed<T>) -> Self {
        ChooseFault::Memory
    }
}
