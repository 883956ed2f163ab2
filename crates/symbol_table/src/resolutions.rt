// What the names of the symbols of a set of files stand for.
ghost use Rattle.std.specs.Prelude.{false, ◌<◌, ◌≡◌, Some, None, IfOk, length, slice_get};
ghost use Rattle.elf64_records.specs.Symbols.{symbol_count};
ghost use Rattle.object_set.specs.Files.{file_at};
ghost use Rattle.object_set.specs.Refusals.{set_refusal};
ghost use Rattle.object_set.specs.Symbols.{is_local, name_of};
ghost use Rattle.symbol_table.specs.Externals.{external_symbols, names_of};
ghost use Rattle.symbol_table.specs.Candidates.{names_seen, stands_for, all_commons, common_number};
ghost use Rattle.symbol_table.specs.inside.Names.{AreAllNameNumbers};

use crate::candidates::{Candidates, CommonSize, Resolution};
use crate::commons::{Commons, commons_of};
use crate::table::{NameNumbers, NameTable};
use object_set::ObjectSet;
use std::alloc::{AllocError, Global};
use std::marker::Model;

/// What the names of the symbols of a set of files stand for. Contracts see the files.
#[derive(Drop)]
pub struct Resolutions<'a, 'b> {
    set: &'b ObjectSet<'a>,
    numbers: Vec<NameNumbers>,
    candidates: Vec<Candidates>,
    commons: Commons,
}

impl<'a, 'b> Model for Resolutions<'a, 'b> {
    ghost use Rattle.std.specs.Prelude.{List, ℕ};
    ghost use Rattle.symbol_table.specs.inside.Resolved.{AreResolvedNames};

    ghost Value = { List (List ℕ) };

    ghost view = { λ r. r.set.now };

    ghost invariant = { λ r.
        AreResolvedNames r.set.now r.candidates.items r.numbers.items r.commons };
}

impl<'a, 'b> Resolutions<'a, 'b> {
    /// What names stand for, by what is said of each and by the numbers of the symbols' names.
    pub fn new(
        alloc: Global,
        set: &'b ObjectSet<'a>,
        table: NameTable<'a>,
        numbers: Vec<NameNumbers>,
    ) -> Result<Self, AllocError>
        requires seen { table ≡ names_seen (external_symbols set.now) }
        requires numbers { AreAllNameNumbers
            (names_of (external_symbols set.now)) set.now (length set.now) numbers.items }
        requires whole { set_refusal set.now ≡ None }
        ensures { IfOk result (λ r. r ≡ set.now) }
    {
        let candidates = table.into_candidates();
        let commons = commons_of(alloc, &candidates)?;
        Ok(Resolutions {
            set,
            numbers,
            candidates,
            commons,
        })
    }

    /// The number of the name of a symbol that other files see.
    fn name_number(&self, file: u32, j: u32) -> usize
        requires file { file < length self.now }
        requires within { j < symbol_count (file_at self.now file) }
        requires external { is_local (file_at self.now file) j ≡ false }
        ensures { slice_get (names_of (external_symbols self.now)) result
            ≡ Some (name_of (file_at self.now file) j) }
    {
        self.numbers[file as usize].of_symbol(j)
    }

    /// What the name of a symbol that other files see stands for.
    pub fn of_symbol(&self, file: u32, j: u32) -> Resolution
        requires file { file < length self.now }
        requires within { j < symbol_count (file_at self.now file) }
        requires external { is_local (file_at self.now file) j ≡ false }
        ensures { result ≡ stands_for self.now (name_of (file_at self.now file) j) }
    {
        let number = self.name_number(file, j);
        self.candidates[number].resolution()
    }

    /// The number of the common of the name of a symbol that other files see: how many names before it stand for a common.
    pub fn common_number(&self, file: u32, j: u32) -> u64
        requires file { file < length self.now }
        requires within { j < symbol_count (file_at self.now file) }
        requires external { is_local (file_at self.now file) j ≡ false }
        ensures { result ≡ common_number self.now (name_of (file_at self.now file) j) }
    {
        let number = self.name_number(file, j);
        self.commons.numbers[number]
    }

    /// The number of commons.
    pub fn common_count(&self) -> u64
        ensures { result ≡ length (all_commons self.now) }
    {
        self.commons.sizes.len() as u64
    }

    /// A common, by its number in first-seen order of the names.
    pub fn common(&self, c: u64) -> CommonSize
        requires { c < length (all_commons self.now) }
        ensures { slice_get (all_commons self.now) c ≡ Some result }
    {
        self.commons.sizes[c as usize]
    }
}
