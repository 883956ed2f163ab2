// Sections: their bytes and their names.
ghost use Rattle.std.specs.Prelude.{◌≡◌, ◌<◌, ◌≤◌, ◌+◌, ◌*◌, ◌/◌, IfOk, IsTrue, None, length};
ghost use Rattle.std.specs.Str.{bytes_eq};
ghost use Rattle.elf64_records.specs.First.{Refuses};
ghost use Rattle.elf64_records.specs.Sections.{sh_offset, sh_size, has_bytes, section_bytes, section_names, section_of};
ghost use Rattle.elf64_records.specs.Faults.{range_fault, name_fault, sections_fault, first_section};
ghost use Rattle.elf64_records.specs.Names.{IsZeroEnd};

use crate::fault::{ElfFault, Place};
use crate::headers::Headers;
use crate::names::{is_named, name_from, zero_end};

/// What a file says of one section.
#[derive(Clone, Copy, Debug)]
pub struct SectionView<'a> {
    /// The name, without the zero byte that ends it; empty for section 0.
    pub name: &'a [u8],
    /// The type (sh_type).
    pub kind: u32,
    /// The flags (sh_flags).
    pub flags: u64,
    /// The size in bytes in memory (sh_size).
    pub size: u64,
    /// The section that this one is linked to (sh_link).
    pub link: u32,
    /// The further number, whose meaning depends on the type (sh_info).
    pub info: u32,
    /// The alignment in bytes, where 0 counts as 1 (sh_addralign).
    pub align: u64,
    /// The bytes in the file; empty for section 0, and for the types NULL and NOBITS.
    pub bytes: &'a [u8],
}

/// The numbers in a section's header that say what the section is.
#[derive(Clone, Copy, Debug, PartialEq, Eq)]
pub struct SectionHeader {
    /// The type (sh_type).
    pub kind: u32,
    /// The flags (sh_flags).
    pub flags: u64,
    /// The size in bytes in memory (sh_size).
    pub size: u64,
    /// The section that this one is linked to (sh_link).
    pub link: u32,
    /// The further number, whose meaning depends on the type (sh_info).
    pub info: u32,
    /// The alignment in bytes, where 0 counts as 1 (sh_addralign).
    pub align: u64,
}

/// The sections of a file, of which the bytes lie in the file and the names end.
#[derive(Clone, Copy)]
pub struct Sections<'a> {
    pub headers: Headers<'a>,
    pub names: &'a [u8],
    ghost whole: { sections_fault headers.bytes.now ≡ None },
    ghost names_is: { names.now ≡ section_names headers.bytes.now },
}

impl<'a> Sections<'a> {
    /// The sections, or the first fault of their ranges, or else of their names.
    pub fn read(headers: Headers<'a>) -> Result<Sections<'a>, ElfFault>
        ensures fault { Refuses result (sections_fault headers.entry.bytes.now) }
        ensures bytes { IfOk result (λ s. s.headers.bytes.now ≡ headers.entry.bytes.now) }
    {
        check_ranges(&headers)?;
        let names = bytes_of(&headers, headers.names());
        check_names(&headers, names)?;
        Ok(Sections { headers, names })
    }

    /// The bytes of a section.
    pub fn bytes(&self, i: u32) -> &'a [u8]
        requires { i < self.now.headers.count }
        ensures value { result.now ≡ section_bytes self.now.headers.bytes.now i }
        ensures length { IsTrue (has_bytes self.now.headers.bytes.now i) →
            length result.now ≡ sh_size self.now.headers.bytes.now i }
    {
        bytes_of(&self.headers, i)
    }

    /// Section `i` of the file.
    pub fn section(&self, i: u32) -> SectionView<'a>
        requires { i < self.now.headers.count }
        ensures name { result.name.now ≡ (section_of self.now.headers.bytes.now i).name }
        ensures kind { result.kind ≡ (section_of self.now.headers.bytes.now i).kind }
        ensures flags { result.flags ≡ (section_of self.now.headers.bytes.now i).flags }
        ensures size { result.size ≡ (section_of self.now.headers.bytes.now i).size }
        ensures link { result.link ≡ (section_of self.now.headers.bytes.now i).link }
        ensures info { result.info ≡ (section_of self.now.headers.bytes.now i).info }
        ensures align { result.align ≡ (section_of self.now.headers.bytes.now i).align }
        ensures bytes { result.bytes.now ≡ (section_of self.now.headers.bytes.now i).bytes }
        ensures length { IsTrue (has_bytes self.now.headers.bytes.now i) →
            length result.bytes.now ≡ result.size }
    {
        let header = self.header(i);
        SectionView {
            name: self.name(i),
            kind: header.kind,
            flags: header.flags,
            size: header.size,
            link: header.link,
            info: header.info,
            align: header.align,
            bytes: self.bytes(i),
        }
    }

    /// The header of section `i` of the file.
    pub fn header(&self, i: u32) -> SectionHeader
        requires { i < self.now.headers.count }
        ensures kind { result.kind ≡ (section_of self.now.headers.bytes.now i).kind }
        ensures flags { result.flags ≡ (section_of self.now.headers.bytes.now i).flags }
        ensures size { result.size ≡ (section_of self.now.headers.bytes.now i).size }
        ensures link { result.link ≡ (section_of self.now.headers.bytes.now i).link }
        ensures info { result.info ≡ (section_of self.now.headers.bytes.now i).info }
        ensures align { result.align ≡ (section_of self.now.headers.bytes.now i).align }
    {
        SectionHeader {
            kind: self.headers.stated_kind(i),
            flags: self.headers.flags(i),
            size: self.headers.size(i),
            link: self.headers.link(i),
            info: self.headers.info(i),
            align: self.headers.align(i),
        }
    }

    /// Whether a section has this name. That of section 0 is empty.
    #[tactic(auto, using(crate::specs::laws::Whole::name_in_table))]
    pub fn is_named(&self, i: u32, name: &[u8]) -> bool
        requires { i < self.now.headers.count }
        ensures { result ≡ bytes_eq (section_of self.now.headers.bytes.now i).name name.now }
    {
        if i == 0 {
            name.is_empty()
        } else {
            is_named(self.names, self.headers.name(i) as usize, name)
        }
    }

    /// The name of a section, which is empty for section 0.
    #[tactic(auto, using(crate::specs::laws::Whole::name_in_table))]
    fn name(&self, i: u32) -> &'a [u8]
        requires { i < self.now.headers.count }
        ensures { result.now ≡ (section_of self.now.headers.bytes.now i).name }
    {
        if i == 0 {
            &[]
        } else {
            name_from(self.names, self.headers.name(i) as usize)
        }
    }

    /// Where the entries of a table begin, and how many of 24 bytes there are.
    pub fn entries(&self, i: u32) -> (usize, u32)
        requires number { i < self.now.headers.count }
        requires stored { IsTrue (has_bytes self.now.headers.bytes.now i) }
        ensures start { result.0 ≡ sh_offset self.now.headers.bytes.now i }
        ensures count { result.1 ≡ sh_size self.now.headers.bytes.now i / 24 }
        ensures within { result.0 + 24 * result.1 ≤ length self.now.headers.bytes.now }
    {
        let (start, size) = range_of(&self.headers, i);
        (start, (size / 24) as u32)
    }
}

/// Where a section's bytes begin, and how many there are, where those of each section lie in the file.
#[tactic(auto, using(crate::specs::laws::Whole::section_in_file))]
fn range_of(headers: &Headers, i: u32) -> (usize, usize)
    requires number { i < headers.now.count }
    requires ranges { let b = headers.now.bytes.now in first_section b (range_fault b) ≡ None }
    requires stored { IsTrue (has_bytes headers.now.bytes.now i) }
    ensures start { result.0 ≡ sh_offset headers.now.bytes.now i }
    ensures size { result.1 ≡ sh_size headers.now.bytes.now i }
    ensures within { result.0 + result.1 ≤ length headers.now.bytes.now }
{
    (headers.offset(i) as usize, headers.size(i) as usize)
}

/// The bytes of a section, where those of each section lie in the file.
fn bytes_of<'a>(headers: &Headers<'a>, i: u32) -> &'a [u8]
    requires number { i < headers.now.count }
    requires ranges { let b = headers.now.bytes.now in first_section b (range_fault b) ≡ None }
    ensures value { result.now ≡ section_bytes headers.now.bytes.now i }
    ensures length { IsTrue (has_bytes headers.now.bytes.now i) →
        length result.now ≡ sh_size headers.now.bytes.now i }
{
    if headers.has_bytes(i) {
        let (start, size) = range_of(headers, i);
        &headers.bytes[start..start + size]
    } else {
        &[]
    }
}

#[tactic(auto, unfolding(crate::specs::Faults::range_fault))]
fn check_range(headers: &Headers, i: u32) -> Result<(), ElfFault>
    requires { i < headers.now.count }
    ensures { Refuses result (range_fault headers.now.bytes.now i) }
{
    let length = headers.bytes.len() as u64;
    let (offset, size) = (headers.offset(i), headers.size(i));
    if headers.has_bytes(i) && (size > length || offset > length - size) {
        return Err(ElfFault::BadTable(Place::Section(i)));
    }
    Ok(())
}

#[tactic(auto, using(crate::specs::laws::First::walk_step, crate::specs::laws::First::walk_end))]
fn check_ranges(headers: &Headers) -> Result<(), ElfFault>
    ensures { let b = headers.now.bytes.now in Refuses result (first_section b (range_fault b)) }
{
    for i in 1..headers.count {
        check_range(headers, i)?;
    }
    Ok(())
}

#[tactic(auto, unfolding(crate::specs::Faults::name_fault))]
fn check_name(headers: &Headers, end: usize, i: u32) -> Result<(), ElfFault>
    requires number { i < headers.now.count }
    requires end { IsZeroEnd (section_names headers.now.bytes.now) end }
    ensures { Refuses result (name_fault headers.now.bytes.now i) }
{
    if (headers.name(i) as usize) < end {
        Ok(())
    } else {
        Err(ElfFault::BadTable(Place::Section(i)))
    }
}

#[tactic(auto, using(crate::specs::laws::First::walk_step, crate::specs::laws::First::walk_end))]
fn check_names(headers: &Headers, names: &[u8]) -> Result<(), ElfFault>
    requires { names.now ≡ section_names headers.now.bytes.now }
    ensures { let b = headers.now.bytes.now in Refuses result (first_section b (name_fault b)) }
{
    let end = zero_end(names);
    for i in 1..headers.count {
        check_name(headers, end, i)?;
    }
    Ok(())
}
