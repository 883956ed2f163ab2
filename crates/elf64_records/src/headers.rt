// The file header and the section headers.
ghost use Rattle.std.specs.Prelude.{◌≡◌, ◌<◌, ◌≤◌, ◌+◌, ◌*◌, IfOk, None, length};
ghost use Rattle.elf64_records.specs.declared.headers.TheConstants.{FILE_LIMIT};
ghost use Rattle.elf64_records.specs.First.{Refuses};
ghost use Rattle.elf64_records.specs.FileHeader.{e_shoff, e_shnum, e_shstrndx};
ghost use Rattle.elf64_records.specs.Sections.{sh_name, sh_type, sh_flags, sh_offset, sh_size, sh_link, sh_info, sh_addralign, sh_entsize, type_of, has_bytes, is_kept};
ghost use Rattle.elf64_records.specs.Faults.{header_fault, kind_fault, has_entries};

use crate::fault::{ElfFault, Place};
use ppc_bytes::constants::{ET_DYN, ET_REL, SHF_ALLOC, SHT_NOBITS, SHT_NULL, SHT_STRTAB};
use ppc_bytes::{half_at, has_magic, is_ppc64_le, long_at, word_at};

/// How many bytes an object file may have.
pub const FILE_LIMIT: usize = 0x1000_0000;

/// The section headers of a file whose file header has no fault.
#[derive(Clone, Copy)]
pub struct Headers<'a> {
    pub bytes: &'a [u8],
    pub start: usize,
    pub count: u32,
    ghost whole: { header_fault bytes.now ≡ None },
    ghost short: { length bytes.now ≤ FILE_LIMIT },
    ghost start_is: { start ≡ e_shoff bytes.now },
    ghost count_is: { count ≡ e_shnum bytes.now },
    ghost within: { start + 64 * count ≤ length bytes.now },
}

impl<'a> Headers<'a> {
    /// The section headers, or the fault of the file header.
    #[tactic(auto, unfolding(crate::specs::Sections::sh_type))]
    pub fn read(bytes: &'a [u8]) -> Result<Headers<'a>, ElfFault>
        requires { length bytes.now ≤ FILE_LIMIT }
        ensures fault { Refuses result (header_fault bytes.now) }
        ensures bytes { IfOk result (λ h. h.bytes.now ≡ bytes.now) }
    {
        check_kind(bytes)?;
        let count = half_at(bytes, 60);
        let size = 64 * u64::from(count);
        let start = long_at(bytes, 40);
        let length = bytes.len() as u64;
        if half_at(bytes, 58) != 64 || count == 0 || size > length || start > length - size {
            return Err(ElfFault::BadTable(Place::File));
        }
        let names = half_at(bytes, 62);
        if names >= count
            || names == 0
            || word_at(bytes, start as usize + 64 * names as usize + 4) != SHT_STRTAB
        {
            return Err(ElfFault::BadTable(Place::File));
        }
        Ok(Headers {
            bytes,
            start: start as usize,
            count: u32::from(count),
        })
    }

    /// The number of the section that holds the sections' names.
    pub fn names(&self) -> u32
        ensures number { result ≡ e_shstrndx self.now.bytes.now }
        ensures within { result < self.now.count }
    {
        u32::from(half_at(self.bytes, 62))
    }

    /// The place of a section's name in the table of names.
    #[tactic(auto, unfolding(crate::specs::Sections::sh_name))]
    pub fn name(&self, i: u32) -> u32
        requires { i < self.now.count }
        ensures { result ≡ sh_name self.now.bytes.now i }
    {
        word_at(self.bytes, self.start + 64 * i as usize)
    }

    /// The type in the header of a section.
    #[tactic(auto, unfolding(crate::specs::Sections::sh_type))]
    pub fn stated_kind(&self, i: u32) -> u32
        requires { i < self.now.count }
        ensures { result ≡ sh_type self.now.bytes.now i }
    {
        word_at(self.bytes, self.start + 64 * i as usize + 4)
    }

    /// The type that a section counts as: NULL for section 0.
    pub fn kind(&self, i: u32) -> u32
        requires { i < self.now.count }
        ensures { result ≡ type_of self.now.bytes.now i }
    {
        if i == 0 {
            SHT_NULL
        } else {
            self.stated_kind(i)
        }
    }

    /// Whether a section's bytes stand in the file.
    pub fn has_bytes(&self, i: u32) -> bool
        requires { i < self.now.count }
        ensures { result ≡ has_bytes self.now.bytes.now i }
    {
        !matches!(self.kind(i), SHT_NULL | SHT_NOBITS)
    }

    /// The flags of a section.
    #[tactic(auto, unfolding(crate::specs::Sections::sh_flags))]
    pub fn flags(&self, i: u32) -> u64
        requires { i < self.now.count }
        ensures { result ≡ sh_flags self.now.bytes.now i }
    {
        long_at(self.bytes, self.start + 64 * i as usize + 8)
    }

    /// Whether a link keeps the section.
    pub fn is_kept(&self, i: u32) -> bool
        requires { i < self.now.count }
        ensures { result ≡ is_kept self.now.bytes.now i }
    {
        i != 0 && self.flags(i) & SHF_ALLOC != 0
    }

    /// Where a section's bytes begin.
    #[tactic(auto, unfolding(crate::specs::Sections::sh_offset))]
    pub fn offset(&self, i: u32) -> u64
        requires { i < self.now.count }
        ensures { result ≡ sh_offset self.now.bytes.now i }
    {
        long_at(self.bytes, self.start + 64 * i as usize + 24)
    }

    /// The size of a section in bytes.
    #[tactic(auto, unfolding(crate::specs::Sections::sh_size))]
    pub fn size(&self, i: u32) -> u64
        requires { i < self.now.count }
        ensures { result ≡ sh_size self.now.bytes.now i }
    {
        long_at(self.bytes, self.start + 64 * i as usize + 32)
    }

    /// The section that a section is linked to.
    #[tactic(auto, unfolding(crate::specs::Sections::sh_link))]
    pub fn link(&self, i: u32) -> u32
        requires { i < self.now.count }
        ensures { result ≡ sh_link self.now.bytes.now i }
    {
        word_at(self.bytes, self.start + 64 * i as usize + 40)
    }

    /// The further number of a section: for relocation records, the section that they are about.
    #[tactic(auto, unfolding(crate::specs::Sections::sh_info))]
    pub fn info(&self, i: u32) -> u32
        requires { i < self.now.count }
        ensures { result ≡ sh_info self.now.bytes.now i }
    {
        word_at(self.bytes, self.start + 64 * i as usize + 44)
    }

    /// The alignment of a section.
    #[tactic(auto, unfolding(crate::specs::Sections::sh_addralign))]
    pub fn align(&self, i: u32) -> u64
        requires { i < self.now.count }
        ensures { result ≡ sh_addralign self.now.bytes.now i }
    {
        long_at(self.bytes, self.start + 64 * i as usize + 48)
    }

    /// The size of each entry of a section that is a table.
    #[tactic(auto, unfolding(crate::specs::Sections::sh_entsize))]
    pub fn entry_size(&self, i: u32) -> u64
        requires { i < self.now.count }
        ensures { result ≡ sh_entsize self.now.bytes.now i }
    {
        long_at(self.bytes, self.start + 64 * i as usize + 56)
    }

    /// Whether a section is a table of entries of 24 bytes.
    pub fn has_entries(&self, i: u32) -> bool
        requires { i < self.now.count }
        ensures { result ≡ has_entries self.now.bytes.now i }
    {
        self.entry_size(i) == 24 && self.size(i).is_multiple_of(24)
    }
}

fn check_kind(bytes: &[u8]) -> Result<(), ElfFault>
    ensures fault { Refuses result (kind_fault bytes.now) }
    ensures length { IfOk result (λ _. 64 ≤ length bytes.now) }
{
    if !has_magic(bytes) {
        return Err(ElfFault::NotElf);
    }
    if bytes.len() < 64 {
        return Err(ElfFault::BadTable(Place::File));
    }
    if !is_ppc64_le(bytes) {
        return Err(ElfFault::NotPpc64Le);
    }
    match half_at(bytes, 16) {
        ET_REL => {}
        ET_DYN => return Err(ElfFault::SharedObject),
        _ => return Err(ElfFault::NotObject),
    }
    match word_at(bytes, 48) {
        0 | 2 => Ok(()),
        _ => Err(ElfFault::BadAbi),
    }
}
