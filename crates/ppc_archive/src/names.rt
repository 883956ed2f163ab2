// The names that an object file defines and asks for.
ghost use Rattle.std.specs.Prelude.{◌≡◌, ◌<◌, nat_lt, ◌&&◌, OnOk, ℕ, List, Some, length};
ghost use Rattle.std.specs.List.{list_any};
ghost use Rattle.std.specs.Str.{bytes_eq};
ghost use Rattle.elf64_records.specs.First.{◌orelse◌, when, first_from};
ghost use Rattle.elf64_records.specs.FileHeader.{e_shnum};
ghost use Rattle.elf64_records.specs.Sections.{is_kept};
ghost use Rattle.elf64_records.specs.Symbols.{symbol_count};
ghost use Rattle.object_set.specs.Symbols.{name_of};
ghost use Rattle.ppc_archive.specs.Choice.{provides_at, asks_at, provides, name_where};
ghost use Rattle.ppc_archive.specs.declared.names.Provider.TheVariants.{Object};
ghost use Rattle.ppc_archive.specs.inside.Givers.{provider_in, provider_at};

use elf64_records::ObjectView;
use elf64_records::constants::{SHF_ALLOC, TOC_BASE};
use std::alloc::AllocError;
use std::collections::HashMap;

/// Which file defines a name first.
#[derive(Clone, Copy, Debug, PartialEq, Eq)]
pub enum Provider {
    /// An object.
    Object,
    /// The candidate with this number.
    Candidate(usize),
}

/// The first file that defines each name.
pub type Providers<'a> = HashMap<&'a [u8], Provider>;

/// Whether an index is that of a section that a link keeps.
fn is_kept_index(view: &ObjectView, index: u16) -> bool
    ensures { result ≡ (nat_lt index (e_shnum view.now) && is_kept view.now index) }
{
    let i = u32::from(index);
    i < view.section_count() && i != 0 && view.section_header(i).flags & SHF_ALLOC != 0
}

/// Whether symbol `j` defines its name.
#[tactic(auto, unfolding(crate::specs::Choice::provides_at))]
fn provides_at(view: &ObjectView, j: u32) -> bool
    requires { j < symbol_count view.now }
    ensures { result ≡ provides_at view.now j }
{
    let symbol = view.symbol_entry(j);
    if j == 0 || !(symbol.is_global() || symbol.is_weak()) {
        return false;
    }
    symbol.is_absolute() || symbol.is_common() || is_kept_index(view, symbol.shndx)
}

/// Whether symbol `j` asks for its name.
#[tactic(auto, unfolding(crate::specs::Choice::asks_at))]
pub fn asks_at(view: &ObjectView, j: u32) -> bool
    requires { j < symbol_count view.now }
    ensures { result ≡ asks_at view.now j }
{
    let symbol = view.symbol_entry(j);
    j != 0 && symbol.is_global() && symbol.is_undefined() && !view.symbol_is_named(j, TOC_BASE)
}

/// The name of symbol `j`, which is empty for symbol 0.
pub fn name_of<'a>(view: &ObjectView<'a>, j: u32) -> &'a [u8]
    requires { j < symbol_count view.now }
    ensures { result.now ≡ name_of view.now j }
{
    if j == 0 { &[] } else { view.symbol(j).name }
}

/// Notes that a file defines a name, where none does so far.
fn note_name<'a>(
    providers: &mut Providers<'a>,
    name: &'a [u8],
    provider: Provider,
) -> Result<(), AllocError>
    ensures { OnOk result ((other : List ℕ) → provider_in providers.new other
        ≡ provider_in providers.old other orelse when (bytes_eq other name.now) provider) }
{
    if providers.get(name).is_none() {
        providers.insert(name, provider)?;
    }
    Ok(())
}

/// Notes the name of symbol `j`, where the file defines it.
fn note_symbol<'a>(
    providers: &mut Providers<'a>,
    view: &ObjectView<'a>,
    j: u32,
    provider: Provider,
) -> Result<(), AllocError>
    requires { j < symbol_count view.now }
    ensures { OnOk result ((other : List ℕ) → provider_in providers.new other
        ≡ provider_in providers.old other
        orelse when (list_any (bytes_eq other) (name_where (provides_at view.now) view.now j))
        provider) }
{
    if !provides_at(view, j) {
        return Ok(());
    }
    note_name(providers, name_of(view, j), provider)
}

/// Notes the names that a file defines, where none does so far.
fn note_names<'a>(
    providers: &mut Providers<'a>,
    view: &ObjectView<'a>,
    provider: Provider,
) -> Result<(), AllocError>
    ensures { OnOk result ((other : List ℕ) → provider_in providers.new other
        ≡ provider_in providers.old other orelse when (provides view.now other) provider) }
{
    for j in 0..view.symbol_count() {
        note_symbol(providers, view, j, provider)?;
    }
    Ok(())
}

/// Notes the names that objects define.
pub fn note_objects<'a>(
    providers: &mut Providers<'a>,
    objects: &[ObjectView<'a>],
) -> Result<(), AllocError>
    ensures { OnOk result ((other : List ℕ) → provider_in providers.new other
        ≡ provider_in providers.old other
        orelse when (list_any (λ b. provides b other) objects.now) Object) }
{
    for object in objects {
        note_names(providers, object, Provider::Object)?;
    }
    Ok(())
}

/// Notes the names that candidates define, in their order.
pub fn note_candidates<'a>(
    providers: &mut Providers<'a>,
    candidates: &[ObjectView<'a>],
) -> Result<(), AllocError>
    ensures { OnOk result ((other : List ℕ) → provider_in providers.new other
        ≡ provider_in providers.old other
        orelse first_from (provider_at candidates.now other) 0 (length candidates.now)) }
{
    for (c, candidate) in candidates.iter().enumerate() {
        note_names(providers, candidate, Provider::Candidate(c))?;
    }
    Ok(())
}
