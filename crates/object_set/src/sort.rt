// What sort a section is of.
ghost use Rattle.std.specs.Prelude.{◌≡◌, ◌<◌};
ghost use Rattle.elf64_records.specs.FileHeader.{e_shnum};
ghost use Rattle.object_set.specs.Sections.{sort_of, is_kept_sort, is_text_sort};

use elf64_records::ObjectView;
use ppc_bytes::constants::{SHF_ALLOC, SHF_EXECINSTR, SHF_WRITE, SHT_NOBITS, TOC_SECTION};

/// What a link does with a section.
#[derive(Clone, Copy, Debug, PartialEq, Eq)]
pub enum Sort {
    /// Instructions.
    Text,
    /// Data that is zero at the start, and has no bytes in the file.
    Zeroed,
    /// A part of the table of contents.
    Toc,
    /// Data that may be written.
    Writable,
    /// Data that is only read.
    ReadOnly,
    /// What isn't in memory: the section isn't kept.
    Dropped,
}

impl Sort {
    /// Whether a section of this sort is in memory.
    pub fn is_kept(self) -> bool
        ensures { result ≡ is_kept_sort self }
    {
        match self {
            Sort::Dropped => false,
            Sort::Text | Sort::Zeroed | Sort::Toc | Sort::Writable | Sort::ReadOnly => true,
        }
    }

    /// Whether a section of this sort holds instructions.
    pub fn is_text(self) -> bool
        ensures { result ≡ is_text_sort self }
    {
        match self {
            Sort::Text => true,
            Sort::Zeroed | Sort::Toc | Sort::Writable | Sort::ReadOnly | Sort::Dropped => false,
        }
    }
}

/// The sort of section `i` of an object file.
#[tactic(auto, unfolding(crate::specs::Sections::sort_of))]
pub fn sort_of(view: &ObjectView, i: u32) -> Sort
    requires { i < e_shnum view.now }
    ensures { result ≡ sort_of view.now i }
{
    let header = view.section_header(i);
    if i == 0 || header.flags & SHF_ALLOC == 0 {
        Sort::Dropped
    } else if header.flags & SHF_EXECINSTR != 0 {
        Sort::Text
    } else if header.kind == SHT_NOBITS {
        Sort::Zeroed
    } else if view.section_is_named(i, TOC_SECTION) {
        Sort::Toc
    } else if header.flags & SHF_WRITE != 0 {
        Sort::Writable
    } else {
        Sort::ReadOnly
    }
}
