// Which sections a link can't take.
ghost use Rattle.std.specs.Prelude.{◌≡◌, ◌<◌, ◌-◌, true};
ghost use Rattle.elf64_records.specs.First.{Refuses, first_from};
ghost use Rattle.elf64_records.specs.FileHeader.{e_shnum};
ghost use Rattle.elf64_records.specs.Sections.{is_kept};
ghost use Rattle.object_set.specs.Sections.{kept_refusal, section_refusal, is_kept_type, is_power_up_to};
ghost use Rattle.object_set.specs.Refusals.{sections_refusal};

use crate::refusal::Refusal;
use elf64_records::{ObjectView, Place};
use ppc_bytes::constants::{
    SHF_ALLOC, SHF_COMPRESSED, SHF_EXECINSTR, SHF_TLS, SHF_WRITE, SHT_FINI_ARRAY, SHT_GROUP,
    SHT_INIT_ARRAY, SHT_NOBITS, SHT_NOTE, SHT_PROGBITS, SHT_REL, SHT_SYMTAB_SHNDX, TOC_SECTION,
};

/// The largest alignment of a section or a common, and that of a part of the table of contents.
pub const ALIGN_LIMIT: u64 = 0x1_0000;

pub const TOC_ALIGN_LIMIT: u64 = 0x100;

/// Whether an alignment is a power of two up to a limit.
pub fn is_power_up_to(limit: u64, align: u64) -> bool
    ensures { result ≡ is_power_up_to limit align }
{
    align.is_power_of_two() && align <= limit
}

/// Refuses a kept section with the first of its faults.
#[tactic(auto, unfolding(crate::specs::Sections::kept_refusal))]
fn check_kept(file: u32, view: &ObjectView, i: u32) -> Result<(), Refusal>
    requires { i < e_shnum view.now }
    ensures { Refuses result (kept_refusal file view.now i) }
{
    let header = view.section_header(i);
    if !has_kept_type(header.kind) {
        return Err(Refusal::BadSection(file, i));
    }
    if header.flags & SHF_COMPRESSED != 0 {
        return Err(Refusal::Unsupported(file, Place::Section(i)));
    }
    let text = header.flags & SHF_EXECINSTR != 0;
    let written = header.flags & SHF_WRITE != 0;
    if text && (written || header.kind == SHT_NOBITS || header.size % 4 != 0) {
        return Err(Refusal::BadSection(file, i));
    }
    let toc = view.section_is_named(i, TOC_SECTION);
    if toc && (text || header.kind != SHT_PROGBITS) {
        return Err(Refusal::BadSection(file, i));
    }
    let limit = if toc { TOC_ALIGN_LIMIT } else { ALIGN_LIMIT };
    if header.align != 0 && !is_power_up_to(limit, header.align) {
        return Err(Refusal::BadAlign(file, Place::Section(i)));
    }
    Ok(())
}

/// Whether a kept section may have this type.
fn has_kept_type(kind: u32) -> bool
    ensures { result ≡ is_kept_type kind }
{
    matches!(
        kind,
        SHT_PROGBITS | SHT_NOTE | SHT_NOBITS | SHT_INIT_ARRAY | SHT_FINI_ARRAY
    )
}

/// Refuses section `i` with the first of its faults.
#[tactic(auto, unfolding(crate::specs::Sections::section_refusal))]
fn check_section(file: u32, view: &ObjectView, i: u32) -> Result<(), Refusal>
    requires { i < e_shnum view.now }
    ensures { Refuses result (section_refusal file view.now i) }
{
    let header = view.section_header(i);
    if matches!(header.kind, SHT_REL | SHT_GROUP | SHT_SYMTAB_SHNDX) {
        return Err(Refusal::Unsupported(file, Place::Section(i)));
    }
    if i == 0 || header.flags & SHF_ALLOC == 0 {
        return Ok(());
    }
    if header.flags & SHF_TLS != 0 {
        return Err(Refusal::Tls(file, Place::Section(i)));
    }
    check_kept(file, view, i)
}

/// Refuses the sections of a file, from section 1 on, with the first of their faults.
#[tactic(auto, using(elf64_records::specs::laws::First::walk_step))]
pub fn check_sections(file: u32, view: &ObjectView) -> Result<(), Refusal>
    ensures { Refuses result (sections_refusal file view.now) }
{
    for i in 1..view.section_count() {
        check_section(file, view, i)?;
    }
    Ok(())
}
