// What a symbol does for its name.
ghost use Rattle.std.specs.Prelude.{◌≡◌, ◌<◌, length};
ghost use Rattle.elf64_records.specs.Symbols.{symbol_count};
ghost use Rattle.object_set.specs.Files.{file_at};
ghost use Rattle.symbol_table.specs.Externals.{role_of};

use crate::definition::is_defined;
use object_set::ObjectSet;
use ppc_bytes::constants::STB_GLOBAL;

/// What a GLOBAL or WEAK symbol does for its name.
#[derive(Clone, Copy)]
pub enum Role {
    /// It is a GLOBAL definition.
    Global,
    /// It is a common.
    Common,
    /// It is a WEAK definition.
    Weak,
    /// It refers to what the name stands for.
    Reference,
}

/// A symbol that other files see, but for its name.
#[derive(Clone, Copy)]
pub struct ExternalSymbol {
    /// What it does for the name.
    pub role: Role,
    /// Its file.
    pub file: u32,
    /// Its number there.
    pub number: u32,
    /// Its size in bytes.
    pub size: u64,
    /// Its value: of a common the alignment.
    pub value: u64,
}

/// What a symbol other than symbol 0 does for its name.
#[tactic(auto, unfolding(crate::specs::Externals::role_of))]
pub fn role_of(set: &ObjectSet, file: u32, j: u32) -> Role
    requires file { file < length set.now }
    requires some { 0 < j }
    requires within { j < symbol_count (file_at set.now file) }
    ensures { result ≡ role_of (file_at set.now file) j }
{
    if set.is_common(file, j) {
        return Role::Common;
    }
    match (
        is_defined(set, file, j),
        set.view(file).symbol_entry(j).binding(),
    ) {
        (false, _) => Role::Reference,
        (true, STB_GLOBAL) => Role::Global,
        (true, _) => Role::Weak,
    }
}
