// What is outside: files by name, and a console.
ghost use Rattle.std.specs.Prelude.{◌≡◌, OnOk, OnErr};
ghost use Rattle.ppc_outside.specs.Outside.{StoreState, ConsoleState, AppendsFile, Fetches, Replaces, Prints};

use std::alloc::{AllocError, AllocFailed};

/// Why a call to the outside gave no answer.
#[derive(Clone, Copy, Debug, PartialEq, Eq)]
pub enum OutsideError {
    /// The file or the console could not be used.
    Failed,
    /// Memory was refused.
    Memory,
}

impl From<AllocError> for OutsideError {
    ghost use Rattle.std.specs.Prelude.{◌≡◌};
    ghost use Rattle.ppc_outside.specs.declared.outside.OutsideError.TheVariants.{Memory};

    ghost from_gives = { λ _ e. e ≡ Memory };

    fn from(_: AllocError) -> Self {
        OutsideError::Memory
    }
}

impl<T: Drop> From<AllocFailed<T>> for OutsideError {
    ghost use Rattle.std.specs.Prelude.{◌≡◌};
    ghost use Rattle.ppc_outside.specs.declared.outside.OutsideError.TheVariants.{Memory};

    ghost from_gives = { λ _ e. e ≡ Memory };

    fn from(_: AllocFailed<T>) -> Self {
        OutsideError::Memory
    }
}

/// Files by name.
pub trait Store {
    /// What the store tells of its files, where it does, and two counts that never fall: of the fetches that failed for a reason of the
    /// store's, and of the replaces that failed.
    ghost state: { Self → StoreState };

    /// Appends the first `limit` bytes of the file, or all of it where it is shorter.
    fn fetch(&mut self, name: &str, limit: usize, into: &mut Vec<u8>) -> Result<(), OutsideError>
        ensures ok { OnOk result
            (AppendsFile (state self.old).told name.now limit into.old.items into.new.items) }
        ensures err { OnErr result (into.new.items ≡ into.old.items) }
        ensures store { Fetches (state self.old) (state self.new) name.now result };

    /// Makes the name hold these bytes, and no others.
    fn replace(&mut self, name: &str, bytes: &[u8]) -> Result<(), OutsideError>
        ensures { Replaces (state self.old) (state self.new) name.now bytes.now result };
}

/// Where text is printed.
pub trait Console {
    /// What was printed, where the console tells it, and a count that never falls: of the puts that failed.
    ghost state: { Self → ConsoleState };

    /// Prints the bytes after all that was printed.
    fn put(&mut self, bytes: &[u8]) -> Result<(), OutsideError>
        ensures { Prints (state self.old) (state self.new) bytes.now result };
}
