// The kinds of relocation by their numbers, and how many bytes each fills.
ghost use Rattle.std.specs.Prelude.{◌≡◌, ◌≢◌, IfSome, IfNone};
ghost use Rattle.reloc_fields.specs.declared.kind.Kind.{Kind};
ghost use Rattle.reloc_fields.specs.Table.{line_of};

/// A kind of relocation, named as in the ABI without `R_PPC64_` (ELFv2 ABI, "Relocation Types Table").
#[derive(Clone, Copy, Debug, PartialEq, Eq)]
pub enum Kind {
    None,
    Addr32,
    Addr16,
    Addr16Lo,
    Addr16Hi,
    Addr16Ha,
    Rel24,
    Rel14,
    Rel32,
    Addr64,
    Rel64,
    Toc16,
    Toc16Lo,
    Toc16Hi,
    Toc16Ha,
    Toc,
    Addr16Ds,
    Addr16LoDs,
    Toc16Ds,
    Toc16LoDs,
    Tocsave,
    Rel24Notoc,
    PcrelOpt,
    Pcrel34,
    GotPcrel34,
    Rel16Lo,
    Rel16Ha,
}

/// The kind of a relocation by its number in the record, or `None` where the table has no such number.
pub fn kind_of(number: u32) -> Option<Kind>
    ensures known { IfSome result (λ kind. (line_of kind).number ≡ number) }
    ensures unknown { IfNone result ((kind : Kind) → (line_of kind).number ≢ number) }
{
    Some(match number {
        0 => Kind::None,
        1 => Kind::Addr32,
        3 => Kind::Addr16,
        4 => Kind::Addr16Lo,
        5 => Kind::Addr16Hi,
        6 => Kind::Addr16Ha,
        10 => Kind::Rel24,
        11 => Kind::Rel14,
        26 => Kind::Rel32,
        38 => Kind::Addr64,
        44 => Kind::Rel64,
        47 => Kind::Toc16,
        48 => Kind::Toc16Lo,
        49 => Kind::Toc16Hi,
        50 => Kind::Toc16Ha,
        51 => Kind::Toc,
        56 => Kind::Addr16Ds,
        57 => Kind::Addr16LoDs,
        63 => Kind::Toc16Ds,
        64 => Kind::Toc16LoDs,
        109 => Kind::Tocsave,
        116 => Kind::Rel24Notoc,
        123 => Kind::PcrelOpt,
        132 => Kind::Pcrel34,
        133 => Kind::GotPcrel34,
        250 => Kind::Rel16Lo,
        252 => Kind::Rel16Ha,
        _ => return None,
    })
}

/// How many bytes the field has: 0, 4 or 8. A field of 16 bits counts as the whole word whose low half it is.
pub fn width(kind: Kind) -> u32
    ensures { result ≡ (line_of kind).width }
{
    match kind {
        Kind::None | Kind::Tocsave | Kind::PcrelOpt => 0,
        Kind::Addr32
        | Kind::Addr16
        | Kind::Addr16Lo
        | Kind::Addr16Hi
        | Kind::Addr16Ha
        | Kind::Rel24
        | Kind::Rel14
        | Kind::Rel32
        | Kind::Toc16
        | Kind::Toc16Lo
        | Kind::Toc16Hi
        | Kind::Toc16Ha
        | Kind::Addr16Ds
        | Kind::Addr16LoDs
        | Kind::Toc16Ds
        | Kind::Toc16LoDs
        | Kind::Rel24Notoc
        | Kind::Rel16Lo
        | Kind::Rel16Ha => 4,
        Kind::Addr64 | Kind::Rel64 | Kind::Toc | Kind::Pcrel34 | Kind::GotPcrel34 => 8,
    }
}
