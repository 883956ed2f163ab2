// Files whose data has addresses, and the numbers that targets are there.
ghost use Rattle.std.specs.Prelude.{◌≡◌, ◌<◌, None, IfOk, length, slice_index, map};
ghost use Rattle.std.specs.List.{range_with_len};
ghost use Rattle.object_set.specs.Walks.{section_walk, index_of};
ghost use Rattle.symbol_table.specs.Records.{records_refusal};
ghost use Rattle.symbol_table.specs.Targets.{plus_addend};
ghost use Rattle.toc_rewrite.specs.Laid.{laid_files, HasAddresses, base_of, section_address, common_address, piece_address, number_of};
ghost use Rattle.toc_rewrite.specs.inside.Laid.{AreFirsts, IsPieceOf, IsTargetOf};

use object_set::ObjectSet;
use std::alloc::{AllocError, Global};
use std::marker::Model;
use symbol_table::{Piece, Resolved, Target};

/// Addresses of data are below this.
pub const ADDRESS_END: u64 = 0x6000_0000;

/// An offset in text at most this far from 0 is in reach of two halves from each TOC base, wherever text lies: a section of text begins
/// below 0x70000000, and a TOC base lies below `ADDRESS_END`.
pub const CODE_REACH: i64 = 0x1000_0000;

/// A number and an addend, modulo 2^64.
fn plus(n: u64, addend: i64) -> u64
    ensures { result ≡ plus_addend n addend }
{
    n.wrapping_add(addend.cast_unsigned())
}

/// How many sections come before those of each file, and before all commons.
#[derive(Drop)]
pub struct Firsts {
    pub items: Vec<u64>,
    pub commons: u64,
}

/// Files whose data has addresses, none of whose relocation records is refused. Contracts see the files and the addresses.
#[derive(Drop)]
pub struct Laid<'l, 'a, 'b> {
    res: &'l Resolved<'a, 'b>,
    bases: &'l [u64],
    pieces: &'l [u64],
    firsts: Firsts,
}

impl<'l, 'a, 'b> Model for Laid<'l, 'a, 'b> {
    ghost use Rattle.std.specs.Prelude.{◌≡◌, None};
    ghost use Rattle.symbol_table.specs.Records.{records_refusal};
    ghost use Rattle.toc_rewrite.specs.Laid.{LaidFiles, laid_files};
    ghost use Rattle.toc_rewrite.specs.inside.Laid.{IsLaid};

    ghost Value = { LaidFiles };

    ghost view = { λ l. laid_files l.res.now.files l.bases.now l.pieces.now };

    ghost invariant = { λ l. IsLaid (laid_files l.res.now.files l.bases.now l.pieces.now)
        l.firsts };
}

/// How many sections come before those of each file of a set, and before all commons.
pub fn firsts_of(alloc: Global, set: &ObjectSet) -> Result<Firsts, AllocError>
    ensures { IfOk result (AreFirsts set.now) }
{
    let mut items = Vec::new(alloc);
    let mut count = 0;
    for file in 0..set.file_count() {
        items.push(count)?;
        count += u64::from(set.view(file).section_count());
    }
    Ok(Firsts {
        items,
        commons: count,
    })
}

impl<'l, 'a, 'b> Laid<'l, 'a, 'b> {
    /// Resolved files with a TOC base for each file, and an address for each section and each common.
    pub fn of(
        alloc: Global,
        res: &'l Resolved<'a, 'b>,
        bases: &'l [u64],
        pieces: &'l [u64],
    ) -> Result<Self, AllocError>
        requires whole { records_refusal res.now.files ≡ None }
        requires addresses { HasAddresses (laid_files res.now.files bases.now pieces.now) }
        ensures { IfOk result (λ l. l ≡
            laid_files res.entry.now.files bases.entry.now pieces.entry.now) }
    {
        Ok(Laid {
            res,
            bases,
            pieces,
            firsts: firsts_of(alloc, res.set())?,
        })
    }

    /// The files and what their symbols stand for.
    pub fn resolved(&self) -> &'l Resolved<'a, 'b>
        ensures files { result.now.files ≡ self.now.files }
        ensures whole { records_refusal self.now.files ≡ None }
    {
        self.res
    }

    /// The TOC base of a file.
    pub fn base_of(&self, file: u32) -> u64
        requires { file < length self.now.files }
        ensures base { result ≡ base_of self.now file }
        ensures low { result < ADDRESS_END }
    {
        self.bases[file as usize]
    }

    /// Where a section of a file lies.
    pub fn section_address(&self, file: u32, section: u32) -> u64
        requires { file < length self.now.files }
        ensures address { result ≡ section_address self.now file section }
        ensures low { result < ADDRESS_END }
    {
        let place = self.firsts.items[file as usize] + u64::from(section);
        match self.pieces.get(place as usize) {
            Some(address) => *address,
            None => 0,
        }
    }

    /// Where a common lies.
    fn common_address(&self, c: u64) -> u64
        ensures { result ≡ common_address self.now c }
    {
        let commons = &self.pieces[self.firsts.commons as usize..];
        match commons.get(c as usize) {
            Some(address) => *address,
            None => 0,
        }
    }

    /// Where a piece lies.
    fn piece_address(&self, piece: Piece) -> u64
        requires { IsPieceOf self.now.files piece }
        ensures { result ≡ piece_address self.now piece }
    {
        match piece {
            Piece::Section(file, section) => self.section_address(file, section),
            Piece::Common(c) => self.common_address(c),
        }
    }

    /// The number that a target is, modulo 2^64; none for a place in text.
    pub fn number_of(&self, target: Target) -> Option<u64>
        requires { IsTargetOf self.now.files target }
        ensures { result ≡ number_of self.now target }
    {
        match target {
            Target::Data { piece, addend } => Some(plus(self.piece_address(piece), addend)),
            Target::Code { .. } => None,
            Target::Number(n) => Some(n),
            Target::TocBase { file, addend } => Some(plus(self.base_of(file), addend)),
            Target::WeakNone(addend) => Some(plus(0, addend)),
        }
    }
}
