// Which symbols a link can't take.
ghost use Rattle.std.specs.Prelude.{◌≡◌, ◌<◌, ◌≤◌, ◌-◌, None};
ghost use Rattle.elf64_records.specs.First.{Refuses, first_from};
ghost use Rattle.elf64_records.specs.FileHeader.{e_shnum};
ghost use Rattle.elf64_records.specs.Symbols.{symbol_count};
ghost use Rattle.object_set.specs.Symbols.{symbol_refusal, value_refusal, is_known_binding, is_known_index, local_entry, has_entries};
ghost use Rattle.object_set.specs.Refusals.{symbols_refusal};

use crate::refusal::Refusal;
use crate::sections::{ALIGN_LIMIT, is_power_up_to};
use crate::sort::{Sort, sort_of};
use elf64_records::{ObjectView, Place};
use ppc_bytes::constants::{
    SHN_ABS, SHN_COMMON, SHN_LORESERVE, SHN_XINDEX, STB_GLOBAL, STB_GNU_UNIQUE, STB_LOCAL,
    STB_WEAK, STT_GNU_IFUNC, STT_TLS, TOC_BASE,
};

/// Refuses symbol `j`, by itself, with the first of its faults.
#[tactic(auto, unfolding(crate::specs::Symbols::symbol_refusal))]
fn check_symbol(file: u32, view: &ObjectView, j: u32) -> Result<(), Refusal>
    requires some { 0 < j }
    requires within { j < symbol_count view.now }
    ensures { Refuses result (symbol_refusal file view.now j) }
{
    let symbol = view.symbol_entry(j);
    let (binding, kind) = (symbol.binding(), symbol.kind());
    if kind == STT_TLS {
        return Err(Refusal::Tls(file, Place::Symbol(j)));
    }
    if kind == STT_GNU_IFUNC || binding == STB_GNU_UNIQUE || symbol.shndx == SHN_XINDEX {
        return Err(Refusal::Unsupported(file, Place::Symbol(j)));
    }
    if !has_known_binding(binding) || !has_known_index(view, symbol.shndx) {
        return Err(Refusal::BadSymbol(file, j));
    }
    let common = symbol.is_common();
    let toc_base = view.symbol_is_named(j, TOC_BASE);
    if (toc_base && !symbol.is_undefined()) || (symbol.is_local() && common) {
        return Err(Refusal::BadSymbol(file, j));
    }
    if common && !is_power_up_to(ALIGN_LIMIT, symbol.value) {
        return Err(Refusal::BadAlign(file, Place::Symbol(j)));
    }
    Ok(())
}

/// Whether a binding is one of the three that are known.
fn has_known_binding(binding: u8) -> bool
    ensures { result ≡ is_known_binding binding }
{
    matches!(binding, STB_LOCAL | STB_GLOBAL | STB_WEAK)
}

/// Whether an index is a section of the file, or means an absolute or a common symbol.
fn has_known_index(view: &ObjectView, index: u16) -> bool
    ensures { result ≡ is_known_index (e_shnum view.now) index }
{
    match index {
        SHN_ABS | SHN_COMMON => true,
        _ => index < SHN_LORESERVE && u32::from(index) < view.section_count(),
    }
}

/// How many bytes a local entry point lies past the global one.
fn local_entry(entry_points: u8) -> u64
    requires { entry_points < 8 }
    ensures { result ≡ local_entry entry_points }
{
    (1 << entry_points) / 4 * 4
}

/// Whether a symbol in text may have these entry points, at an offset of a section of some size.
fn has_entries(entry_points: u8, offset: u64, size: u64) -> bool
    requires { entry_points < 8 }
    ensures { result ≡ has_entries entry_points offset size }
{
    let local = local_entry(entry_points);
    match entry_points {
        0 | 1 => true,
        7 => false,
        _ => offset % 4 == 0 && local < size && offset < size - local,
    }
}

/// Refuses symbol `j` where it lies in a kept section and not as it should.
#[tactic(auto, using(crate::specs::laws::Fit::index_in_range), unfolding(crate::specs::Symbols::value_refusal))]
fn check_value(file: u32, view: &ObjectView, j: u32) -> Result<(), Refusal>
    requires some { 0 < j }
    requires within { j < symbol_count view.now }
    requires fit { symbol_refusal file view.now j ≡ None }
    ensures { Refuses result (value_refusal file view.now j) }
{
    let symbol = view.symbol_entry(j);
    if symbol.shndx >= SHN_LORESERVE {
        return Ok(());
    }
    let section = u32::from(symbol.shndx);
    let size = view.section_header(section).size;
    let fits = match sort_of(view, section) {
        Sort::Dropped => true,
        Sort::Text => symbol.value <= size && has_entries(symbol.other >> 5, symbol.value, size),
        Sort::Zeroed | Sort::Toc | Sort::Writable | Sort::ReadOnly => symbol.value <= size,
    };
    if fits {
        Ok(())
    } else {
        Err(Refusal::BadSymbol(file, j))
    }
}

/// Refuses the symbols of a file, from symbol 1 on, with the first of their own faults.
#[tactic(auto, using(elf64_records::specs::laws::First::walk_step))]
fn check_each(file: u32, view: &ObjectView) -> Result<(), Refusal>
    ensures { Refuses result
        (first_from (symbol_refusal file view.now) 1 (symbol_count view.now - 1)) }
{
    for j in 1..view.symbol_count() {
        check_symbol(file, view, j)?;
    }
    Ok(())
}

/// Refuses the symbols of a file, of which each is fit by itself, with the first that doesn't lie in its section as it should.
#[tactic(auto, using(elf64_records::specs::laws::First::walk_step, elf64_records::specs::laws::First::walk_none))]
fn check_values(file: u32, view: &ObjectView) -> Result<(), Refusal>
    requires { first_from (symbol_refusal file view.now) 1 (symbol_count view.now - 1) ≡ None }
    ensures { Refuses result
        (first_from (value_refusal file view.now) 1 (symbol_count view.now - 1)) }
{
    for j in 1..view.symbol_count() {
        check_value(file, view, j)?;
    }
    Ok(())
}

/// Refuses the symbols of a file, from symbol 1 on, with the first of their faults: those of each by itself come first.
pub fn check_symbols(file: u32, view: &ObjectView) -> Result<(), Refusal>
    ensures { Refuses result (symbols_refusal file view.now) }
{
    check_each(file, view)?;
    check_values(file, view)
}
