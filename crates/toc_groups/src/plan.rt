// The plan of data: where the pieces of data, the TOC bases and the slots lie, and where text starts.
ghost use Rattle.std.specs.Prelude.{◌≡◌, ◌<◌, ◌≤◌, ◌^◌, ℕ, None, Some, IfOk, IsTrue, length, map, slice_get, slice_index};
ghost use Rattle.std.specs.Int.{cast_unsigned, w64};
ghost use Rattle.object_set.specs.Refusals.{Answers};
ghost use Rattle.symbol_table.specs.Targets.{plus_addend};
ghost use Rattle.toc_groups.specs.Groups.{IsTocSpan};
ghost use Rattle.toc_groups.specs.Data.{data_refusal};
ghost use Rattle.toc_groups.specs.Plans.{IsPlan, IsLaidPiece, IsLaidTarget, IsLaidSymbol, address_in, piece_index, slot_in};
ghost use Rattle.toc_groups.specs.inside.Laid.{data_end_in, base_at};

use crate::groups::{TOC_BIAS, TocGroup, TocGroups, toc_groups};
use crate::pieces::{DataEnds, LaidPieces, SectionAddresses, lay_pieces};
use crate::slots::{SLOT_SIZE, SlotRow};
use elf64_exec::PAGE;
use object_set::{Refusal, SymbolId};
use ppc_bytes::align_up;
use std::alloc::{AllocError, Global};
use std::marker::Model;
use symbol_table::{Piece, Resolved, Target};

/// Where the data of files lies, and where text starts behind it. Reading it takes no memory.
#[derive(Drop)]
pub struct DataPlan {
    groups: TocGroups,
    bases: Vec<u64>,
    pieces: LaidPieces,
    text_start: u64,
}

impl Model for DataPlan {
    ghost use Rattle.toc_groups.specs.Plans.{LaidData};
    ghost use Rattle.toc_groups.specs.inside.Plans.{IsSafe};
    ghost use Rattle.std.specs.Prelude.{map};
    ghost use Rattle.toc_groups.specs.inside.Named.{slots_in};

    ghost Value = { LaidData };

    ghost view = { λ p. record {
      span = p.groups.span;
      groups = p.groups.numbers.items;
      bases = p.bases.items;
      pieces = p.pieces.addresses.pieces.items;
      firsts = p.pieces.addresses.firsts.items;
      commons = p.pieces.commons;
      starts = p.pieces.starts.items;
      named = map slots_in p.groups.groups.items;
      slots = p.groups.rows.items;
      ends = p.pieces.ends;
      text_start = p.text_start;
    } };

    ghost invariant = { λ p. IsSafe p.groups.numbers.items p.pieces.starts.items
        p.groups.rows.items };
}

/// A number and an addend, modulo 2^64.
fn plus(n: u64, addend: i64) -> u64
    ensures { result ≡ plus_addend n addend }
{
    n.wrapping_add(addend.cast_unsigned())
}

impl DataPlan {
    /// The number of each file's TOC group.
    pub fn groups(&self) -> &[u32]
        ensures { result.now ≡ self.now.groups }
    {
        self.groups.numbers.as_slice()
    }

    /// The TOC base of each file.
    pub fn bases(&self) -> &[u64]
        ensures { result.now ≡ self.now.bases }
    {
        self.bases.as_slice()
    }

    /// The address of each section of each file in order, section 0 among them, or 0 where it is no data; and then the address of each
    /// common in first-seen order of the names.
    pub fn pieces(&self) -> &[u64]
        ensures { result.now ≡ self.now.pieces }
    {
        self.pieces.addresses.pieces.as_slice()
    }

    /// The number of a file's TOC group.
    pub fn group_of(&self, file: u32) -> u32
        requires { file < length self.now.groups }
        ensures { slice_get self.now.groups file ≡ Some result }
    {
        self.groups.numbers[file as usize]
    }

    /// The TOC base of a file: its group's start and 0x8000 (ELFv2 ABI, 3.3 "TOC").
    pub fn base_of(&self, file: u32) -> u64
        requires { file < length self.now.bases }
        ensures { slice_get self.now.bases file ≡ Some result }
    {
        self.bases[file as usize]
    }

    /// Which of the addresses is a piece's.
    fn piece_index(&self, piece: Piece) -> u64
        requires { IsLaidPiece self.now piece }
        ensures index { result ≡ piece_index self.now piece }
        ensures within { result < length self.now.pieces }
    {
        match piece {
            Piece::Section(file, section) => {
                self.pieces.addresses.firsts[file as usize] + u64::from(section)
            }
            Piece::Common(c) => self.pieces.commons + c,
        }
    }

    /// The address of a piece.
    pub fn piece_address(&self, piece: Piece) -> u64
        requires { IsLaidPiece self.now piece }
        ensures { result ≡ slice_index self.now.pieces (piece_index self.now piece) }
    {
        self.pieces.addresses.pieces[self.piece_index(piece) as usize]
    }

    /// Where a target lies in data, or the number that it is, modulo 2^64. None for a place in text.
    pub fn address(&self, t: Target) -> Option<u64>
        requires { IsLaidTarget self.now t }
        ensures { result ≡ address_in self.now t }
    {
        match t {
            Target::Data { piece, addend } => Some(plus(self.piece_address(piece), addend)),
            Target::Code { .. } => None,
            Target::Number(n) => Some(n),
            Target::TocBase { file, addend } => Some(plus(self.base_of(file), addend)),
            Target::WeakNone(addend) => Some(plus(0, addend)),
        }
    }

    /// Where the slot of a symbol of a file lies, if a load of that file names the symbol.
    pub fn slot(&self, file: u32, symbol: u32) -> Option<u64>
        requires { IsLaidSymbol self.now file symbol }
        ensures { result ≡ slot_in self.now file symbol }
    {
        let start = self.pieces.starts[self.group_of(file) as usize];
        match self.groups.rows[file as usize].of_symbol(symbol) {
            Some(number) => Some(start + SLOT_SIZE * number),
            None => None,
        }
    }

    /// Where the runs of data begin and end.
    pub(crate) fn ends(&self) -> DataEnds
        ensures { result ≡ self.now.ends }
    {
        self.pieces.ends
    }

    /// How many TOC groups there are.
    pub fn group_count(&self) -> usize
        ensures { result ≡ length self.now.named }
    {
        self.groups.groups.len()
    }

    /// The symbols for which the slots of a group were made.
    pub fn group_slots(&self, group: usize) -> &[SymbolId]
        requires { group < length self.now.named }
        ensures { slice_get self.now.named group ≡ Some result.now }
    {
        self.groups.groups[group].slots.as_slice()
    }

    /// Where a group starts.
    pub fn group_start(&self, group: usize) -> u64
        requires { group < length self.now.starts }
        ensures { result ≡ slice_index self.now.starts group }
    {
        self.pieces.starts[group]
    }

    /// Where text starts.
    pub fn text_start(&self) -> u64
        ensures { result ≡ self.now.text_start }
    {
        self.text_start
    }
}

/// What a test looks at before it reads a plan.
#[cfg(test)]
impl DataPlan {
    /// Whether the slot of a symbol of a file may be asked for.
    pub fn has_symbol(&self, file: u32, symbol: u32) -> bool
        ensures { IsTrue result → IsLaidSymbol self.now file symbol }
    {
        (file as usize) < self.groups.numbers.len()
            && u64::from(symbol) < self.groups.rows[file as usize].count()
    }

    /// Whether the base of a file may be asked for.
    pub fn has_file(&self, file: u32) -> bool
        ensures { IsTrue result → file < length self.now.bases }
    {
        (file as usize) < self.bases.len()
    }
}

/// The end of the last piece that isn't empty.
fn data_end(ends: DataEnds) -> u64
    ensures { result ≡ data_end_in ends }
{
    if ends.commons == ends.writable_start {
        ends.read_only
    } else {
        ends.commons
    }
}

/// The TOC bases of files whose groups have these numbers and starts.
fn bases_of(alloc: Global, numbers: &[u32], starts: &[u64]) -> Result<Vec<u64>, AllocError>
    requires known { (file : ℕ) → file < length numbers.now →
        slice_index numbers.now file < length starts.now }
    requires low { (g : ℕ) → slice_index starts.now g < 2 ^ 63 }
    ensures { IfOk result (λ bases. bases.items ≡ map (base_at starts.now) numbers.now) }
{
    let mut bases = Vec::new(alloc);
    for number in numbers {
        bases.push(starts[*number as usize] + TOC_BIAS)?;
    }
    Ok(bases)
}

/// Lays out the data of files with a TOC span in bytes; or data is too big.
pub fn lay_data(alloc: Global, res: &Resolved, toc_span: u32) -> Result<DataPlan, Refusal>
    requires span { IsTocSpan toc_span }
    ensures refusal { Answers result (data_refusal res.now.files toc_span) }
    ensures plan { IfOk result (IsPlan res.now.files toc_span) }
{
    let set = res.set();
    // none of the files is refused
    let _files = set.file_count();
    let groups = toc_groups(alloc, set, u64::from(toc_span))?;
    let pieces = lay_pieces(alloc, res, &groups)?;
    let bases = bases_of(alloc, groups.numbers.as_slice(), pieces.starts.as_slice())?;
    let text_start = align_up(data_end(pieces.ends), PAGE);
    Ok(DataPlan {
        groups,
        bases,
        pieces,
        text_start,
    })
}
