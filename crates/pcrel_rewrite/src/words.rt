// Whether the words of a section at two offsets are a load of an address and an access that can become one instruction.
ghost use Rattle.std.specs.Prelude.{◌≡◌, ◌<◌, ◌≤◌, ◌+◌, ◌-◌, ◌*◌, ◌%◌, ◌↔◌, ℕ, IsTrue, IfSome, IfNone, length};
ghost use Rattle.ppc_bytes.specs.Bytes.{number_at};
ghost use Rattle.power_insns.specs.Operations.{operation_of};
ghost use Rattle.power_insns.specs.Table.{Fits as FitsWord};
ghost use Rattle.pcrel_rewrite.specs.declared.words.ShortAccess.{ShortAccess};
ghost use Rattle.pcrel_rewrite.specs.declared.words.Uses.{Uses};
ghost use Rattle.pcrel_rewrite.specs.inside.Words.{ArePassed};
ghost use Rattle.pcrel_rewrite.specs.Words.{IsWordOf, IsShortWord, LoadsAddress, IsAccess, is_straight, Spares, may_pass, MayPass, IsPassed, IsNear, ArePairWords};

use power_insns::meaning::Operation;
use power_insns::plan::plan_for;
use power_insns::{Access, Insn, decode, memory, reads, writes};
use ppc_bytes::word_at;
use prefixed_insns::{POp, ShortForm, decode_pair, short_form};

/// A load or store by a displacement from a register, which has a prefixed form.
#[derive(Clone, Copy)]
pub struct ShortAccess {
    /// The instruction.
    pub insn: Insn,
    /// Its register, its base and its displacement, and the mnemonic of the prefixed form.
    pub form: ShortForm,
}

/// The access of a word, if it is one. What the tail of a recognised pair loads or stores, and how far from the symbol, is read off it.
pub fn short_access(word: u32) -> Option<ShortAccess>
    ensures some { IfSome result (IsShortWord word) }
    ensures none { IfNone result ((access : ShortAccess) → ¬ IsShortWord word access) }
{
    let insn = decode(word)?;
    let form = short_form(&insn)?;
    Some(ShortAccess { insn, form })
}

/// What an access uses, so that words between it and the load of its address have to spare it.
#[derive(Clone, Copy)]
pub struct Uses {
    /// The register that holds the address.
    pub address: u32,
    /// The register that is loaded or stored.
    pub register: u32,
    /// What is done with memory.
    pub access: Access,
}

/// The register that two words load, where they are `pld` relative to its own address and the register isn't r0.
fn loaded_register(prefix: u32, suffix: u32) -> Option<u32>
    ensures some { IfSome result (λ r. LoadsAddress prefix suffix r × (r < 32)) }
    ensures none { IfNone result ((r : ℕ) → ¬ LoadsAddress prefix suffix r) }
{
    match decode_pair(prefix, suffix) {
        Some(insn) if insn.op == POp::Pld && insn.relative && insn.rt != 0 => Some(insn.rt),
        _ => None,
    }
}

/// Whether an instruction goes on at the next one, and is no call of the system.
fn is_straight(insn: &Insn) -> bool
    requires { FitsWord insn.now }
    ensures { result ≡ is_straight (operation_of insn.now) }
{
    !matches!(plan_for(insn), Operation::Branch { .. } | Operation::System)
}

/// Whether an instruction neither reads nor writes a register.
fn spares(insn: &Insn, register: u32) -> bool
    requires insn { FitsWord insn.now }
    requires register { register < 32 }
    ensures { IsTrue result ↔ Spares (operation_of insn.now) register }
{
    !reads(insn, register) && !writes(insn, register)
}

/// Whether an access may be made before another one.
fn may_pass(access: Access, other: Access) -> bool
    ensures { result ≡ may_pass access other }
{
    match access {
        Access::None => true,
        Access::Load => other != Access::Store,
        Access::Store => other == Access::None,
    }
}

/// Whether an access may be made before the instruction of a word.
fn is_passed(uses: Uses, word: u32) -> bool
    requires address { uses.address < 32 }
    requires register { uses.register < 32 }
    ensures { IsTrue result ↔ IsPassed uses word }
{
    match decode(word) {
        Some(insn) => {
            is_straight(&insn)
                && spares(&insn, uses.address)
                && spares(&insn, uses.register)
                && may_pass(uses.access, memory(&insn))
        }
        None => false,
    }
}

/// What the access of a word uses, where the word is a load or store by a displacement from a register.
fn access_through(word: u32, address: u32) -> Option<Uses>
    requires { address < 32 }
    ensures some { IfSome result (λ uses. IsAccess word address uses) }
    ensures none { IfNone result ((uses : Uses) → ¬ IsAccess word address uses) }
{
    let found = short_access(word)?;
    if found.form.base != address {
        return None;
    }
    let access = memory(&found.insn);
    if access == Access::Store && found.form.register == address {
        return None;
    }
    Some(Uses {
        address,
        register: found.form.register,
        access,
    })
}

/// Whether an access may be made before all words between two places.
fn all_are_passed(bytes: &[u8], from: usize, count: usize, uses: Uses) -> bool
    requires within { from + 4 * count ≤ length bytes.now }
    requires address { uses.address < 32 }
    requires register { uses.register < 32 }
    ensures { IsTrue result ↔ ArePassed bytes.now from count uses }
{
    for k in 0..count {
        if !is_passed(uses, word_at(bytes, from + 4 * k)) {
            return false;
        }
    }
    true
}

/// Whether the words at two places are a load of an address and an access that can become one instruction.
pub fn are_pair_words(bytes: &[u8], head: usize, tail: usize) -> bool
    requires near { IsNear head tail }
    requires within { tail + 4 ≤ length bytes.now }
    ensures { IsTrue result ↔ ArePairWords bytes.now head tail }
{
    match loaded_register(word_at(bytes, head), word_at(bytes, head + 4)) {
        Some(address) => match access_through(word_at(bytes, tail), address) {
            Some(uses) => all_are_passed(bytes, head + 8, (tail - head - 8) / 4, uses),
            None => false,
        },
        None => false,
    }
}
