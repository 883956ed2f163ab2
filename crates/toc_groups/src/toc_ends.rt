// Where the `.toc` sections of a TOC group end, however many slots come before them.
ghost use Rattle.std.specs.Prelude.{◌≡◌, ◌<◌, ◌≤◌, ◌^◌, ◌*◌, ◌++◌, ◌∷◌, [], ℕ, List, IfOk, length, slice_index};
ghost use Rattle.std.specs.List.{AllByRecursion};
ghost use Rattle.toc_groups.specs.declared.extents.Extent.{Extent};
ghost use Rattle.toc_groups.specs.Runs.{behind, run_end, IsFitExtent};
ghost use Rattle.toc_groups.specs.inside.Ends.{AreEnds, AreLow, IsTocExtent};

use crate::extents::{Extent, behind};
use crate::slots::SLOT_SIZE;
use std::alloc::{AllocError, Global};
use std::marker::Model;

/// How many slots fill the alignment of a group. No `.toc` section has a larger alignment, so that many slots more move all sections by
/// as much.
const TURN: u64 = 32;

/// Where the `.toc` sections of a group end that begin behind so many slots: for each number of slots below a turn. Contracts see the
/// list of these ends.
#[derive(Drop)]
pub struct TocEnds {
    ends: Vec<u64>,
}

impl Model for TocEnds {
    ghost use Rattle.std.specs.Prelude.{ℕ, List};

    ghost Value = { List ℕ };

    ghost view = { λ e. e.ends.items };
}

/// Puts a section behind each of the ends.
fn push_behind(ends: &mut Vec<u64>, section: Extent)
    requires fit { IsFitExtent section }
    requires size { section.size < 2 ^ 62 }
    requires low { (i : ℕ) → i < length ends.old.items → slice_index ends.old.items i < 2 ^ 63 }
    ensures length { length ends.new.items ≡ length ends.old.items }
    ensures each { (i : ℕ) → i < length ends.old.items →
        slice_index ends.new.items i ≡ behind (slice_index ends.old.items i) section }
{
    for i in 0..ends.len() {
        ends[i] = behind(ends[i], section);
    }
}

impl TocEnds {
    /// Those of no sections.
    pub fn none(alloc: Global) -> Result<TocEnds, AllocError>
        ensures { IfOk result (AreEnds []) }
    {
        let mut ends = Vec::new(alloc);
        for slots in 0..TURN {
            ends.push(SLOT_SIZE * slots)?;
        }
        Ok(TocEnds { ends })
    }

    /// Takes in a section more.
    pub fn add(&mut self, section: Extent)
        requires fit { IsFitExtent section }
        requires size { section.size < 2 ^ 62 }
        requires low { AreLow self.old }
        ensures { (sections : List Extent) →
            AreEnds sections self.old → AreEnds (sections ++ section ∷ []) self.new }
    {
        push_behind(&mut self.ends, section);
    }

    /// Where the sections end behind so many slots.
    pub fn behind_slots(&self, slots: u64) -> u64
        requires slots { slots ≤ 2 ^ 58 }
        requires low { AreLow self.now }
        ensures { (sections : List Extent) →
            AllByRecursion IsTocExtent sections →
            AreEnds sections self.now →
            result ≡ run_end (SLOT_SIZE * slots) sections }
    {
        let rest = slots % TURN;
        SLOT_SIZE * (slots - rest) + self.ends[rest as usize]
    }
}
