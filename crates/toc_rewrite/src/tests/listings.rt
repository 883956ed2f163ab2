// The words that a rewriting gives, where they are known by hand.
ghost use Rattle.std.specs.Prelude.{◌≡◌, IsTrue};
ghost use Rattle.toc_rewrite.specs.Words.{IsRewritten};

use crate::fold_word;
use crate::words::{TOC_REGISTER, base_register, is_ld, is_small, suits};
use reloc_fields::{Kind, check};
use std::test::Fail;

/// Whether a word may be rewritten so.
fn may_fold(kind: Kind, word: u32, x: i128, folded: bool) -> bool
    ensures { IsTrue result → IsRewritten kind word x folded }
{
    match kind {
        Kind::Toc16Ha => suits(kind, word) && check(Kind::Toc16Ha, x).is_ok(),
        Kind::Toc16Lo => suits(kind, word) && !folded,
        Kind::Toc16LoDs => {
            suits(kind, word)
                && ((folded && is_ld(word)) || (!folded && check(Kind::Toc16LoDs, x).is_ok()))
        }
        Kind::Toc16Ds => {
            is_ld(word) && base_register(word) == TOC_REGISTER && folded && is_small(x)
        }
        _ => false,
    }
}

/// A kind, a word, its record's number, whether the load is folded, and the word that it becomes.
type Row = (Kind, u32, i128, bool, u32);

const ROWS: [Row; 14] = [
    // listing one: the slot holds what is 0x8030 bytes past the base, and p lies 0x7FF8 bytes before it
    (Kind::Toc16Ha, 0x3D22_0000, 0x8030, false, 0x3D22_0001),
    (Kind::Toc16LoDs, 0xE929_0000, 0x8030, true, 0x3929_8030),
    (Kind::Toc16Ha, 0x3D42_0000, -0x7FF8, false, 0x6000_0000),
    (Kind::Toc16LoDs, 0xE94A_0000, -0x7FF8, false, 0xE942_8008),
    // a third user forbids the fold: the slot itself lies 0x8000 bytes before the base
    (Kind::Toc16Ha, 0x3D22_0000, -0x8000, false, 0x6000_0000),
    (Kind::Toc16LoDs, 0xE929_0000, -0x8000, false, 0xE922_8000),
    (Kind::Toc16Lo, 0x3908_0000, -0x8000, false, 0x3902_8000),
    // a small-model slot
    (Kind::Toc16Ds, 0xE862_0000, -0x7FF8, true, 0x3862_8008),
    // the ends of what is small
    (Kind::Toc16Ha, 0x3D22_0000, 0x7FFF, false, 0x6000_0000),
    (Kind::Toc16Ha, 0x3D22_0000, 0x8000, false, 0x3D22_0001),
    (Kind::Toc16Ha, 0x3D22_0000, -0x8001, false, 0x3D22_FFFF),
    (Kind::Toc16Lo, 0x9009_1234, 0x8000, false, 0x9009_8000),
    // `lwa` and `std` keep their last two bits, and a folded load has none
    (Kind::Toc16LoDs, 0xE929_0002, 0x1_0004, false, 0xE929_0006),
    (Kind::Toc16LoDs, 0xE929_0000, 0x1_0003, true, 0x3929_0003),
];

#[test]
fn words_become_what_they_do_by_hand(rt: HostRuntime) -> Result<(), Fail> {
    for (i, (kind, word, x, folded, new)) in ROWS.iter().enumerate() {
        if !may_fold(*kind, *word, *x, *folded) {
            return Err(Fail::new("no word that is rewritten"));
        }
        assert_eq!(rt; fold_word(*kind, *word, *x, *folded), *new, "{i}");
    }
    Ok(())
}
