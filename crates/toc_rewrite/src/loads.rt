// How records of TOC loads use foldable slots.
ghost use Rattle.std.specs.Prelude.{◌≡◌};
ghost use Rattle.toc_rewrite.specs.Uses.{is_toc_load, takes_slot, number_of, folds_by, is_folded_load, is_rewritten};

use crate::words::{TOC_REGISTER, base_register, is_ld, is_small};
use reloc_fields::Kind;

/// A relocation record as the rewriting of TOC loads sees it (ELFv2 ABI, 3.3 "TOC").
#[derive(Clone, Copy)]
pub struct TocRecord {
    /// The kind of its relocation.
    pub kind: Kind,
    /// The word on which it stands.
    pub word: u32,
    /// If it names a foldable slot: how far what the slot holds lies from the TOC base, in bytes.
    pub slot: Option<i128>,
}

/// Whether a word is `ld` from the TOC base itself.
pub fn is_toc_load(word: u32) -> bool
    ensures { result ≡ is_toc_load word }
{
    is_ld(word) && base_register(word) == TOC_REGISTER
}

/// Whether a record of a kind on a word is made of what a foldable slot holds, in place of the slot's address.
fn takes_slot(kind: Kind, word: u32) -> bool
    ensures { result ≡ takes_slot kind word }
{
    match kind {
        Kind::Toc16Ha | Kind::Toc16LoDs => true,
        Kind::Toc16Ds => is_toc_load(word),
        _ => false,
    }
}

/// Whether a load by a record of a kind on a word reaches what is at a distance without the slot.
fn folds_by(kind: Kind, word: u32, distance: i128) -> bool
    ensures { result ≡ folds_by kind word distance }
{
    match kind {
        Kind::Toc16LoDs => is_ld(word),
        Kind::Toc16Ds => is_toc_load(word) && is_small(distance),
        _ => false,
    }
}

impl TocRecord {
    /// The number of the record, of which its word gets a part: how far what the slot holds lies from the TOC base, where the record is
    /// made of that; or else its own value.
    pub fn number(&self, own: i128) -> i128
        ensures { result ≡ number_of self.now own }
    {
        match self.slot {
            Some(distance) => {
                if takes_slot(self.kind, self.word) {
                    distance
                } else {
                    own
                }
            }
            None => own,
        }
    }

    /// Whether the word is a folded `ld`, which loads no slot any longer. Its record's own value isn't checked.
    pub fn is_folded_load(&self) -> bool
        ensures { result ≡ is_folded_load self.now }
    {
        match self.slot {
            Some(distance) => folds_by(self.kind, self.word, distance),
            None => false,
        }
    }

    /// Whether the word is rewritten by `fold_word`, where the record's file is orderly or isn't; else its field is filled.
    pub fn is_rewritten(&self, orderly: bool) -> bool
        ensures { result ≡ is_rewritten self.now orderly }
    {
        match self.kind {
            Kind::Toc16Ha | Kind::Toc16Lo | Kind::Toc16LoDs => orderly,
            Kind::Toc16Ds => self.is_folded_load(),
            _ => false,
        }
    }
}
