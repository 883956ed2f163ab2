// Which values a field holds.
ghost use Rattle.std.specs.Prelude.{◌↔◌, IsOk, IsTrue};
ghost use Rattle.reloc_fields.specs.Table.{line_of, Passes};

use crate::kind::Kind;
use ppc_bytes::fits_signed;

/// The field of a relocation doesn't hold its value.
#[derive(Clone, Copy, Debug, PartialEq, Eq)]
pub struct Overflow;

/// Whether the field of the kind holds the value `v`; `Overflow` comes exactly where it doesn't.
pub fn check(kind: Kind, v: i128) -> Result<(), Overflow>
    ensures { IsOk result ↔ Passes (line_of kind).check v }
{
    if holds(kind, v) {
        Ok(())
    } else {
        Err(Overflow)
    }
}

// The same as a test.
fn holds(kind: Kind, v: i128) -> bool
    ensures { IsTrue result ↔ Passes (line_of kind).check v }
{
    match kind {
        Kind::None
        | Kind::Addr16Lo
        | Kind::Addr64
        | Kind::Rel64
        | Kind::Toc16Lo
        | Kind::Toc
        | Kind::Tocsave
        | Kind::PcrelOpt
        | Kind::Rel16Lo => true,
        Kind::Addr32 => -0x8000_0000 <= v && v < 0x1_0000_0000,
        Kind::Addr16 | Kind::Toc16 => fits_signed(v, 16),
        Kind::Addr16Hi | Kind::Rel32 | Kind::Toc16Hi => fits_signed(v, 32),
        Kind::Pcrel34 | Kind::GotPcrel34 => fits_signed(v, 34),
        Kind::Addr16Ha | Kind::Toc16Ha | Kind::Rel16Ha => v < i128::MAX - 0x8000
            && fits_signed(v + 0x8000, 32),
        Kind::Rel24 | Kind::Rel24Notoc => fits_signed(v, 26) && v.rem_euclid(4) == 0,
        Kind::Rel14 | Kind::Addr16Ds | Kind::Toc16Ds => fits_signed(v, 16) && v.rem_euclid(4) == 0,
        Kind::Addr16LoDs | Kind::Toc16LoDs => v.rem_euclid(4) == 0,
    }
}
