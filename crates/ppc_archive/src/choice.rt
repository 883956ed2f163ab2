// Which candidates a link takes.
ghost use Rattle.std.specs.Prelude.{◌≡◌, ◌<◌, ◌≤◌, IfOk, OnOk, ℕ, List, [], None, Some, length, slice_index};
ghost use Rattle.elf64_records.specs.Symbols.{symbol_count};
ghost use Rattle.ppc_archive.specs.Choice.{asks_at, name_where, asked_names, flagged, IsChoice};
ghost use Rattle.ppc_archive.specs.inside.Givers.{candidate_in, taken, taken_all, chosen, among, AreBelow};
ghost use Rattle.ppc_archive.specs.inside.Pools.{AreGivers, HasRoots, pool_of};

use crate::names::{Provider, Providers, asks_at, name_of, note_candidates, note_objects};
use elf64_records::ObjectView;
use std::alloc::{AllocError, Global};
use std::collections::HashMap;
use std::marker::Model;

/// Candidates that are chosen, in the order in which they were, of so many.
#[derive(Drop)]
struct Choice {
    flags: Vec<bool>,
    order: Vec<usize>,
}

impl Model for Choice {
    ghost use Rattle.std.specs.Prelude.{length};
    ghost use Rattle.ppc_archive.specs.inside.Givers.{Chosen, AreFlags};

    ghost Value = { Chosen };

    ghost view = { λ c. record { total = length c.flags.items; order = c.order.items } };

    ghost invariant = { λ c. AreFlags c.flags.items c.order.items };
}

impl Choice {
    /// None of so many.
    fn none(alloc: Global, total: usize) -> Result<Choice, AllocError>
        ensures { IfOk result (λ choice. choice ≡ chosen total []) }
    {
        Ok(Choice {
            flags: vec![in alloc; false; total]?,
            order: Vec::new(alloc),
        })
    }

    /// Chooses a candidate, where it is new.
    fn take(&mut self, c: usize) -> Result<(), AllocError>
        requires { c < self.old.total }
        ensures { OnOk result (
            self.new ≡ chosen self.old.total (taken self.old.order (Some c))) }
    {
        if !self.flags[c] {
            self.order.push(c)?;
            self.flags[c] = true;
        }
        Ok(())
    }

    /// Chooses the candidate that a name needs.
    fn take_name(&mut self, providers: &Providers, name: &[u8]) -> Result<(), AllocError>
        requires { AreBelow providers.now self.old.total }
        ensures { OnOk result (self.new
            ≡ chosen self.old.total (taken self.old.order (candidate_in providers.now name.now))) }
    {
        match providers.get(name) {
            Some(Provider::Candidate(c)) => self.take(*c),
            _ => Ok(()),
        }
    }

    /// How many are chosen.
    fn count(&self) -> usize
        ensures count { result ≡ length self.now.order }
        ensures few { result ≤ self.now.total }
    {
        let _flags = &self.flags;
        self.order.len()
    }

    /// The candidate that was chosen as number `k`.
    fn get(&self, k: usize) -> usize
        requires { k < length self.now.order }
        ensures number { result ≡ slice_index self.now.order k }
    {
        self.order[k]
    }

    /// For each candidate whether it is chosen.
    fn into_flags(self) -> Vec<bool>
        ensures count { length result.items ≡ self.total }
        ensures flags { (c : ℕ) → flagged result.items c ≡ among self.order c }
    {
        self.flags
    }
}

/// Chooses what the name of symbol `j` needs, where the file asks for it.
fn take_symbol(
    choice: &mut Choice,
    providers: &Providers,
    view: &ObjectView,
    j: u32,
) -> Result<(), AllocError>
    requires below { AreBelow providers.now choice.old.total }
    requires symbol { j < symbol_count view.now }
    ensures { OnOk result (choice.new ≡ chosen choice.old.total
        (taken_all (candidate_in providers.now) choice.old.order
        (name_where (asks_at view.now) view.now j))) }
{
    if !asks_at(view, j) {
        return Ok(());
    }
    choice.take_name(providers, name_of(view, j))
}

/// Chooses what the names need for which a file asks.
fn take_asked(
    choice: &mut Choice,
    providers: &Providers,
    view: &ObjectView,
) -> Result<(), AllocError>
    requires { AreBelow providers.now choice.old.total }
    ensures { OnOk result (choice.new ≡ chosen choice.old.total
        (taken_all (candidate_in providers.now) choice.old.order (asked_names view.now))) }
{
    for j in 0..view.symbol_count() {
        take_symbol(choice, providers, view, j)?;
    }
    Ok(())
}

/// Files that a link is given, as they are read: objects, and the candidates among the members of libraries.
#[derive(Drop)]
pub struct ReadFiles<'a> {
    /// The objects.
    pub objects: Vec<ObjectView<'a>>,
    /// The candidates.
    pub candidates: Vec<ObjectView<'a>>,
}

/// The first file that defines each name.
fn first_providers<'a>(alloc: Global, files: &ReadFiles<'a>) -> Result<Providers<'a>, AllocError>
    ensures { IfOk result (λ providers.
        (entry : List ℕ) → AreGivers (pool_of files.now entry) providers) }
{
    let mut providers = HashMap::new(alloc);
    note_objects(&mut providers, &files.objects)?;
    note_candidates(&mut providers, &files.candidates)?;
    Ok(providers)
}

/// What the entry and the objects need.
fn roots(
    alloc: Global,
    files: &ReadFiles,
    providers: &Providers,
    entry: &[u8],
) -> Result<Choice, AllocError>
    requires { AreGivers (pool_of files.now entry.now) providers.now }
    ensures total { IfOk result (λ choice. choice.total ≡ length files.now.candidates.items) }
    ensures roots { IfOk result (λ choice.
        HasRoots (pool_of files.now entry.now) choice.order) }
{
    let mut choice = Choice::none(alloc, files.candidates.len())?;
    choice.take_name(providers, entry)?;
    for object in &files.objects {
        take_asked(&mut choice, providers, object)?;
    }
    Ok(choice)
}

/// For each candidate whether a link takes it: the least choice that has what is needed for the entry, for the objects and for the
/// chosen candidates. A candidate is looked at once, when it is chosen.
pub fn least_choice(alloc: Global, files: &ReadFiles, entry: &[u8]) -> Result<Vec<bool>, AllocError>
    ensures count { IfOk result (λ flags.
        length flags.items ≡ length files.now.candidates.items) }
    ensures choice { IfOk result (λ flags.
        IsChoice (pool_of files.now entry.now) (flagged flags.items)) }
{
    let providers = first_providers(alloc, files)?;
    let mut choice = roots(alloc, files, &providers, entry)?;
    let mut next = 0;
    while next < choice.count() {
        let c = choice.get(next);
        next += 1;
        take_asked(&mut choice, &providers, &files.candidates[c])?;
    }
    Ok(choice.into_flags())
}
