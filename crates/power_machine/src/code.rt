// What stands at an address as an instruction.
ghost use Rattle.std.specs.Prelude.{◌≡◌, ◌%◌, ◌+◌, ◌^◌, ◌==◌, ◌&&◌, ℕ, true, Some, None, if◌then◌else◌};
ghost use Rattle.power_machine.specs.Memory.{ranges_of, byte_at};
ghost use Rattle.power_machine.specs.Codes.{Stands, is_executable, word_in, HasNoWord};
ghost use Rattle.power_machine.specs.inside.Words.{word_fetched};

use crate::memory::{AddressSpace, Purpose};
use power_insns::meaning::Width;
use power_insns::{Insn, decode};
use prefixed_insns::{PInsn, decode_pair};

/// What stands at an address.
#[derive(Clone, Copy)]
pub enum Code {
    /// The address isn't executable.
    Unfetched,

    /// No instruction of the subset.
    Unknown,

    /// An instruction of one word.
    OneWord(Insn),

    /// An instruction of two words.
    TwoWords(PInsn),
}

// The word at an address, where it is executable.
fn fetch(memory: &AddressSpace, at: u64) -> Option<u32>
    ensures { result ≡ word_fetched at memory.now.regions.items }
{
    if at % 4 != 0 {
        return None;
    }
    let word = memory.number_at(Purpose::Fetching, at, Width::Word)?;
    Some(word as u32)
}

/// What stands at an address.
pub fn code_at(memory: &AddressSpace, at: u64) -> Code
    ensures { Stands (ranges_of memory.now.regions.items) (byte_at memory.now.regions.items) at
        result }
{
    let Some(word) = fetch(memory, at) else {
        return Code::Unfetched;
    };
    if let Some(insn) = decode(word) {
        return Code::OneWord(insn);
    }
    pair_at(memory, at, word)
}

// What stands at an address whose word is no instruction.
fn pair_at(memory: &AddressSpace, at: u64, prefix: u32) -> Code
    requires executable { is_executable (ranges_of memory.now.regions.items) at ≡ true }
    requires prefix { prefix ≡ word_in (byte_at memory.now.regions.items) at }
    requires no_word { HasNoWord (byte_at memory.now.regions.items) at }
    ensures { Stands (ranges_of memory.now.regions.items) (byte_at memory.now.regions.items) at
        result }
{
    if at % 64 == 60 {
        return Code::Unknown;
    }
    let Some(second) = fetch(memory, at.wrapping_add(4)) else {
        return Code::Unknown;
    };
    match decode_pair(prefix, second) {
        Some(insn) => Code::TwoWords(insn),
        None => Code::Unknown,
    }
}
