// The words on which the records of TOC loads stand, and what a rewriting makes of them.
ghost use Rattle.std.specs.Prelude.{◌≡◌, ◌<◌, ◌^◌};
ghost use Rattle.symbol_table.specs.Sites.{primary_opcode};
ghost use Rattle.toc_rewrite.specs.Words.{target_register, base_register, is_ld, is_lwa, is_std, can_hold_high, has_displacement, suits, only_loads, is_small, word_of, rewritten_base, folded_load, with_low, with_low_ds, with_high, folded_word, IsRewritten};

use ppc_bytes::constants::NOP;
use ppc_bytes::{ha, lo};
use reloc_fields::Kind;

/// r2, which holds the TOC base.
pub const TOC_REGISTER: u32 = 2;

/// The primary opcodes of `addi` and `addis`, and those of `ld`, `lwa` and of `std`.
pub const ADDI: u32 = 14;

pub const ADDIS: u32 = 15;

pub const LD_FORMS: u32 = 58;

pub const STD_FORMS: u32 = 62;

/// The primary opcode of a word.
fn primary_opcode(word: u32) -> u32
    ensures opcode { result ≡ primary_opcode word }
    ensures fits { result < 64 }
{
    word >> 26
}

/// The register that a word writes or stores.
pub fn target_register(word: u32) -> u32
    ensures register { result ≡ target_register word }
    ensures fits { result < 32 }
{
    (word >> 21) % 32
}

/// The register to which a word adds its displacement.
pub fn base_register(word: u32) -> u32
    ensures register { result ≡ base_register word }
    ensures fits { result < 32 }
{
    (word >> 16) % 32
}

pub fn is_ld(word: u32) -> bool
    ensures { result ≡ is_ld word }
{
    primary_opcode(word) == LD_FORMS && word % 4 == 0
}

fn is_lwa(word: u32) -> bool
    ensures { result ≡ is_lwa word }
{
    primary_opcode(word) == LD_FORMS && word % 4 == 2
}

fn is_std(word: u32) -> bool
    ensures { result ≡ is_std word }
{
    primary_opcode(word) == STD_FORMS && word % 4 == 0
}

/// Whether a register can hold the high half of an address.
fn can_hold_high(register: u32) -> bool
    ensures { result ≡ can_hold_high register }
{
    register != 0 && register != TOC_REGISTER
}

/// Whether words of an opcode add a displacement of 16 bits to a base and don't write the base.
fn has_displacement(opcode: u32) -> bool
    ensures { result ≡ has_displacement opcode }
{
    matches!(
        opcode,
        14 | 32 | 34 | 36 | 38 | 40 | 42 | 44 | 48 | 50 | 52 | 54
    )
}

/// Whether an orderly file may have a record of a kind on a word.
pub fn suits(kind: Kind, word: u32) -> bool
    ensures { result ≡ suits kind word }
{
    match kind {
        Kind::Toc16Ha => {
            primary_opcode(word) == ADDIS
                && base_register(word) == TOC_REGISTER
                && can_hold_high(target_register(word))
        }
        Kind::Toc16Lo => {
            has_displacement(primary_opcode(word)) && can_hold_high(base_register(word))
        }
        Kind::Toc16LoDs => {
            (is_ld(word) || is_lwa(word) || is_std(word)) && can_hold_high(base_register(word))
        }
        _ => true,
    }
}

/// Whether a record of a kind on a word uses the slot that it names for nothing but to load it.
pub fn only_loads(kind: Kind, word: u32) -> bool
    ensures { result ≡ only_loads kind word }
{
    match kind {
        Kind::Toc16Ha | Kind::Toc16Ds => true,
        Kind::Toc16LoDs => is_ld(word),
        _ => false,
    }
}

/// Whether one signed half holds a number.
pub fn is_small(x: i128) -> bool
    ensures { result ≡ is_small x }
{
    -0x8000 <= x && x < 0x8000
}

/// A word by its fields.
fn word_of(opcode: u32, target: u32, base: u32, low: u32) -> u32
    requires opcode { opcode < 64 }
    requires target { target < 32 }
    requires base { base < 32 }
    requires low { low < 2 ^ 16 }
    ensures { result ≡ word_of opcode target base low }
{
    (opcode << 26) + (target << 21) + (base << 16) + low
}

/// The base of a word that adds a low half.
fn rewritten_base(word: u32, x: i128) -> u32
    ensures base { result ≡ rewritten_base word x }
    ensures fits { result < 32 }
{
    if is_small(x) {
        TOC_REGISTER
    } else {
        base_register(word)
    }
}

/// `addi`, which makes the address in place of loading it.
fn folded_load(word: u32, x: i128) -> u32
    ensures { result ≡ folded_load word x }
{
    word_of(ADDI, target_register(word), rewritten_base(word, x), lo(x))
}

/// A word with the low half.
fn with_low(word: u32, x: i128) -> u32
    ensures { result ≡ with_low word x }
{
    word_of(
        primary_opcode(word),
        target_register(word),
        rewritten_base(word, x),
        lo(x),
    )
}

/// A word with the low half but for its own last two bits.
fn with_low_ds(word: u32, x: i128) -> u32
    ensures { result ≡ with_low_ds word x }
{
    let low = lo(x) / 4 * 4 + word % 4;
    word_of(
        primary_opcode(word),
        target_register(word),
        rewritten_base(word, x),
        low,
    )
}

/// A word with the high half, or none where that is 0.
fn with_high(word: u32, x: i128) -> u32
    ensures { result ≡ with_high word x }
{
    if is_small(x) {
        NOP
    } else {
        word_of(
            primary_opcode(word),
            target_register(word),
            base_register(word),
            ha(x),
        )
    }
}

/// What becomes of a word with a TOC16_HA, TOC16_LO, TOC16_LO_DS or TOC16_DS record and its number `x`, which counts from the TOC base;
/// `folded` where the record names a foldable slot that it no longer loads, and `x` counts to what the slot holds (ELFv2 ABI,
/// "Relocation Notations").
pub fn fold_word(kind: Kind, word: u32, x: i128, folded: bool) -> u32
    requires { IsRewritten kind word x folded }
    ensures { result ≡ folded_word kind word x folded }
{
    match kind {
        Kind::Toc16Ha => with_high(word, x),
        Kind::Toc16Lo => with_low(word, x),
        Kind::Toc16LoDs => {
            if folded {
                folded_load(word, x)
            } else {
                with_low_ds(word, x)
            }
        }
        Kind::Toc16Ds => folded_load(word, x),
        _ => word,
    }
}
