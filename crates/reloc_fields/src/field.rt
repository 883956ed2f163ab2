// A value put into its field.
ghost use Rattle.std.specs.Prelude.{◌≡◌, ◌<◌, ◌≤◌, ◌^◌, ◌+◌, ◌*◌};
ghost use Rattle.ppc_bytes.specs.Halves.{low_of, hi, d0, d1};
ghost use Rattle.reloc_fields.specs.Bits.{Fills};
ghost use Rattle.reloc_fields.specs.Table.{field, line_of, mask, Passes};

use crate::kind::Kind;
use ppc_bytes::{d0, d1, ha, hi, low_bits};

/// The field with the value `v` in it. `old` is the field's bytes as a little-endian number, so that of a prefixed
/// instruction the prefix is the low half. Bits that aren't the kind's keep their value (ELFv2 ABI, "Relocation
/// Fields"); a field of four bytes stays one.
pub fn fill(kind: Kind, old: u64, v: i128) -> u64
    requires { Passes (line_of kind).check v }
    ensures bits { let filling = (line_of kind).filling in
        Fills (mask filling) old (field filling v) result }
    ensures word { (line_of kind).width ≡ 4 → old < 2 ^ 32 → result < 2 ^ 32 }
{
    match kind {
        Kind::None | Kind::Tocsave | Kind::PcrelOpt => old,
        Kind::Addr32 | Kind::Rel32 => merged(0xFFFF_FFFF, old, low_bits(v, 32)),
        Kind::Addr64 | Kind::Rel64 | Kind::Toc => merged(u64::MAX, old, low_bits(v, 64)),
        Kind::Addr16 | Kind::Addr16Lo | Kind::Toc16 | Kind::Toc16Lo | Kind::Rel16Lo => merged(
            0xFFFF,
            old,
            low_bits(v, 16),
        ),
        Kind::Addr16Hi | Kind::Toc16Hi => merged(0xFFFF, old, u64::from(hi(v))),
        Kind::Addr16Ha | Kind::Toc16Ha | Kind::Rel16Ha => merged(0xFFFF, old, u64::from(ha(v))),
        Kind::Rel24 | Kind::Rel24Notoc => merged(0x03FF_FFFC, old, low_bits(v, 26)),
        Kind::Rel14 => merged(0xFFFC, old, low_bits(v, 16)),
        Kind::Addr16Ds | Kind::Addr16LoDs | Kind::Toc16Ds | Kind::Toc16LoDs => merged(
            0xFFFC,
            old,
            low_bits(v, 16),
        ),
        Kind::Pcrel34 | Kind::GotPcrel34 => merged(0xFFFF_0003_FFFF, old, split_34(v)),
    }
}

// The bits of `field` where `mask` has a one, and elsewhere those of `old`.
fn merged(mask: u64, old: u64, field: u64) -> u64
    ensures bits { Fills mask old field result }
    ensures word { mask < 2 ^ 32 → old < 2 ^ 32 → result < 2 ^ 32 }
{
    (old & !mask) | (field & mask)
}

// The two parts of a displacement, the prefix's in the low word and the suffix's in the high one.
fn split_34(v: i128) -> u64
    ensures { result ≡ d1 v * 2 ^ 32 + d0 v }
{
    (u64::from(d1(v)) << 32) + u64::from(d0(v))
}
