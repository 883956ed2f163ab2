// The value of a relocation, over whole numbers, so that nothing wraps.
ghost use Rattle.std.specs.Prelude.{◌≡◌, pos, ◌+ℤ◌, ◌-ℤ◌};
ghost use Rattle.reloc_fields.specs.Table.{line_of, value};

use crate::kind::Kind;

/// The value of a relocation (ELFv2 ABI, "Relocation Notations"): `s` is the symbol's address, for `GotPcrel34` that of
/// its GOT slot; `a` the addend; `p` the field's address; `toc` the TOC base of the file. Kinds that compute nothing have 0,
/// `PcrelOpt` its addend, and `Toc` the TOC base.
pub fn value_of(kind: Kind, s: u64, a: i64, p: u64, toc: u64) -> i128
    ensures { result ≡ value (line_of kind).formula s a p toc }
{
    match kind {
        Kind::None | Kind::Tocsave => 0,
        Kind::PcrelOpt => i128::from(a),
        Kind::Toc => i128::from(toc),
        Kind::Addr32
        | Kind::Addr16
        | Kind::Addr16Lo
        | Kind::Addr16Hi
        | Kind::Addr16Ha
        | Kind::Addr64
        | Kind::Addr16Ds
        | Kind::Addr16LoDs => absolute(s, a),
        Kind::Rel24
        | Kind::Rel14
        | Kind::Rel32
        | Kind::Rel64
        | Kind::Rel24Notoc
        | Kind::Pcrel34
        | Kind::GotPcrel34
        | Kind::Rel16Lo
        | Kind::Rel16Ha => distance(p, s, a),
        Kind::Toc16
        | Kind::Toc16Lo
        | Kind::Toc16Hi
        | Kind::Toc16Ha
        | Kind::Toc16Ds
        | Kind::Toc16LoDs => distance(toc, s, a),
    }
}

// An address with its addend.
fn absolute(s: u64, a: i64) -> i128
    ensures { result ≡ pos s +ℤ a }
{
    i128::from(s) + i128::from(a)
}

// The same, counted from another address.
fn distance(from: u64, s: u64, a: i64) -> i128
    ensures { result ≡ (pos s +ℤ a) -ℤ pos from }
{
    absolute(s, a) - i128::from(from)
}
