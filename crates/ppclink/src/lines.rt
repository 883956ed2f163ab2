// The lines that are printed.
ghost use Rattle.std.specs.Prelude.{◌≡◌, ◌≢◌, ◌++◌, decimal, codes, IfOk, OnOk, false, [], ℤ};
ghost use Rattle.std.specs.Fmt.{digits, signed_decimal};
ghost use Rattle.ppc_archive.specs.Expand.{named_refusal};
ghost use Rattle.ppclink.specs.Requests.{texts};
ghost use Rattle.ppclink.specs.Lines.{line, usage_line, unread_line, name_in, section_text, place_text, offset_text, site_text, about, too_long_line, refusal_text, refusal_line, fault_line};
ghost use Rattle.ppclink.specs.Jobs.{names_of_files};
ghost use Rattle.ppclink.specs.inside.Names.{called};

use elf64_records::Place;
use link_engine::{FileBytes, Refusal, Site};
use ppc_bytes::Memory;
use std::alloc::Global;

// A line of the linker with this text.
fn line(alloc: Global, text: &[u8]) -> Result<Vec<u8>, Memory>
    ensures { IfOk result (λ l. l.items ≡ line text.now) }
{
    let mut whole = Vec::from_slice(alloc, b"ppclink: ")?;
    whole.extend_from_slice(text)?;
    whole.extend_from_slice(b"\n")?;
    Ok(whole)
}

/// Two texts, one after the other.
pub fn joined(alloc: Global, front: &[u8], back: &[u8]) -> Result<Vec<u8>, Memory>
    ensures { IfOk result (λ l. l.items ≡ front.now ++ back.now) }
{
    let mut text = Vec::from_slice(alloc, front)?;
    text.extend_from_slice(back)?;
    Ok(text)
}

/// A text and a decimal number.
pub fn numbered(alloc: Global, front: &[u8], n: u32) -> Result<Vec<u8>, Memory>
    ensures { IfOk result (λ l. l.items ≡ front.now ++ decimal n) }
{
    let digits = n.to_string(alloc)?;
    joined(alloc, front, digits.as_bytes())
}

/// The line for words that aren't understood.
pub fn usage_line(alloc: Global) -> Result<Vec<u8>, Memory>
    ensures { IfOk result (λ text. text.items ≡ usage_line) }
{
    line(alloc, b"words not understood")
}

/// The line for a file that can't be read.
pub fn unread_line(alloc: Global, name: &str) -> Result<Vec<u8>, Memory>
    ensures { IfOk result (λ text. text.items ≡ unread_line name.now) }
{
    let text = joined(alloc, b"cannot read ", name.as_bytes())?;
    line(alloc, &text)
}

fn place_text(alloc: Global, place: Place) -> Result<Vec<u8>, Memory>
    ensures { IfOk result (λ text. text.items ≡ place_text place) }
{
    match place {
        Place::File => Ok(Vec::new(alloc)),
        Place::Section(i) => numbered(alloc, b" section ", i),
        Place::Symbol(j) => numbered(alloc, b" symbol ", j),
        Place::Record(i, k) => {
            let table = numbered(alloc, b" record ", i)?;
            let front = joined(alloc, &table, b" ")?;
            numbered(alloc, &front, k)
        }
    }
}

/// An offset in a section.
pub fn offset_text(alloc: Global, section: u32, offset: u64) -> Result<Vec<u8>, Memory>
    ensures { IfOk result (λ text. text.items ≡ offset_text section offset) }
{
    let section = numbered(alloc, b" section ", section)?;
    let front = joined(alloc, &section, b" offset 0x")?;
    let digits = format!(in alloc; "{offset:x}")?;
    joined(alloc, &front, digits.as_bytes())
}

/// What is wrong at a place of a file.
pub fn about(alloc: Global, name: &[u8], place: &[u8], what: &[u8]) -> Result<Vec<u8>, Memory>
    ensures { IfOk result (λ text. text.items ≡ about name.now place.now what.now) }
{
    let mut text = Vec::from_slice(alloc, name)?;
    text.extend_from_slice(place)?;
    text.extend_from_slice(b": ")?;
    text.extend_from_slice(what)?;
    line(alloc, &text)
}

/// The line for a file of more bytes than it may have.
pub fn too_long_line(alloc: Global, name: &str) -> Result<Vec<u8>, Memory>
    ensures { IfOk result (λ text. text.items ≡ too_long_line name.now) }
{
    about(alloc, name.as_bytes(), b"", b"file too long")
}

/// The name of a file among words; it is empty where there is no such file.
fn word_at(names: &[String], file: u32) -> &[u8]
    ensures { result.now ≡ name_in (texts names.now) file }
{
    match names.get(file as usize) {
        Some(name) => name.as_str().as_bytes(),
        None => b"",
    }
}

/// The name of a file among files; it is empty where there is no such file.
pub fn file_name_at(files: &[FileBytes], file: u32) -> &[u8]
    ensures { result.now ≡ name_in (names_of_files files.now) file }
{
    match files.get(file as usize) {
        Some(file) => file.name.as_str().as_bytes(),
        None => b"",
    }
}

/// What files are called.
#[derive(Clone, Copy)]
enum FileNames<'a> {
    /// As these words say.
    Words(&'a [String]),
    /// As they are called themselves.
    Files(&'a [FileBytes]),
    /// All so.
    One(&'a [u8]),
}

/// The lines of refusals of files that are called so.
#[derive(Clone, Copy)]
struct Lines<'a> {
    alloc: Global,
    names: FileNames<'a>,
}

impl Lines<'_> {
    // The name of a file, by its number; it is empty where there is no such file.
    fn name(&self, file: u32) -> &[u8]
        ensures { result.now ≡ called self.now.names file }
    {
        match self.names {
            FileNames::Words(names) => word_at(names, file),
            FileNames::Files(files) => file_name_at(files, file),
            FileNames::One(name) => name,
        }
    }

    // A line of the linker's own, with a name at its end.
    fn named(&self, what: &[u8], name: &[u8]) -> Result<Vec<u8>, Memory>
        ensures { IfOk result (λ text. text.items ≡ line (what.now ++ name.now)) }
    {
        let text = joined(self.alloc, what, name)?;
        line(self.alloc, &text)
    }

    fn file(&self, file: u32, what: &[u8]) -> Result<Vec<u8>, Memory>
        ensures { IfOk result (λ text.
            text.items ≡ about (called self.now.names file) [] what.now) }
    {
        about(self.alloc, self.name(file), b"", what)
    }

    fn place(&self, file: u32, place: Place, what: &[u8]) -> Result<Vec<u8>, Memory>
        ensures { IfOk result (λ text. text.items
            ≡ about (called self.now.names file) (place_text place) what.now) }
    {
        let place = place_text(self.alloc, place)?;
        about(self.alloc, self.name(file), &place, what)
    }

    fn site(&self, site: &Site, what: &[u8]) -> Result<Vec<u8>, Memory>
        ensures { IfOk result (λ text. text.items
            ≡ about (called self.now.names site.now.file) (site_text site.now)
            what.now) }
    {
        let place = offset_text(self.alloc, site.section, site.offset)?;
        about(self.alloc, self.name(site.file), &place, what)
    }

    // The same with a name, a number or a value at the end.
    fn site_name(&self, site: &Site, what: &[u8], name: &[u8]) -> Result<Vec<u8>, Memory>
        ensures { IfOk result (λ text. text.items
            ≡ about (called self.now.names site.now.file) (site_text site.now)
            (what.now ++ name.now)) }
    {
        let what = joined(self.alloc, what, name)?;
        self.site(site, &what)
    }

    fn site_number(&self, site: &Site, what: &[u8], number: u32) -> Result<Vec<u8>, Memory>
        ensures { IfOk result (λ text. text.items
            ≡ about (called self.now.names site.now.file) (site_text site.now)
            (what.now ++ decimal number)) }
    {
        let what = numbered(self.alloc, what, number)?;
        self.site(site, &what)
    }

    fn site_value(&self, site: &Site, what: &[u8], value: i128) -> Result<Vec<u8>, Memory>
        ensures { IfOk result (λ text. text.items
            ≡ about (called self.now.names site.now.file) (site_text site.now)
            (what.now ++ signed_decimal value)) }
    {
        let digits = value.to_string(self.alloc)?;
        self.site_name(site, what, digits.as_bytes())
    }

    // The line for a name that is defined twice.
    fn twice(&self, name: &[u8], first: u32, second: u32) -> Result<Vec<u8>, Memory>
        ensures { IfOk result (λ text. text.items
            ≡ line (called self.now.names first ++ codes " and "
            ++ called self.now.names second ++ codes ": defined twice " ++ name.now)) }
    {
        let mut text = Vec::from_slice(self.alloc, self.name(first))?;
        text.extend_from_slice(b" and ")?;
        text.extend_from_slice(self.name(second))?;
        text.extend_from_slice(b": defined twice ")?;
        text.extend_from_slice(name)?;
        line(self.alloc, &text)
    }

    // What is wrong at a place of a file, with the place at its end.
    fn file_offset(&self, file: u32, what: &[u8], at: u64) -> Result<Vec<u8>, Memory>
        ensures { IfOk result (λ text. text.items
            ≡ about (called self.now.names file) [] (what.now ++ digits 16 false at)) }
    {
        let digits = format!(in self.alloc; "{at:x}")?;
        let what = joined(self.alloc, what, digits.as_bytes())?;
        self.file(file, &what)
    }

    // The line of a refusal.
    fn refusal(&self, refusal: &Refusal) -> Result<Vec<u8>, Memory>
        ensures line { IfOk result (λ text.
            text.items ≡ refusal_text (called self.now.names) refusal.now) }
        ensures stated { OnOk result (refusal.now ≢ Refusal.Memory) }
    {
        match refusal {
            Refusal::FileTooLong(file) => self.file(*file, b"file too long"),
            Refusal::NotElf(file) => self.file(*file, b"not an ELF file"),
            Refusal::NotPpc64Le(file) => self.file(*file, b"not little-endian ppc64"),
            Refusal::SharedObject(file) => self.file(*file, b"shared object"),
            Refusal::NotObject(file) => self.file(*file, b"not a relocatable file"),
            Refusal::BadAbi(file) => self.file(*file, b"not ELFv2"),
            Refusal::BadTable(file, place) => self.place(*file, *place, b"bad table"),
            Refusal::Unsupported(file, place) => self.place(*file, *place, b"unsupported"),
            Refusal::Tls(file, place) => self.place(*file, *place, b"thread-local storage"),
            Refusal::BadAlign(file, place) => self.place(*file, *place, b"bad alignment"),
            Refusal::BadSection(file, i) => self.place(*file, Place::Section(*i), b"bad section"),
            Refusal::BadSymbol(file, j) => self.place(*file, Place::Symbol(*j), b"bad symbol"),
            Refusal::Duplicate(name, first, second) => self.twice(name.as_slice(), *first, *second),
            Refusal::NoEntry(name) => self.named(b"no entry ", name.as_slice()),
            Refusal::EntryNotCode(name) => self.named(b"entry is not code ", name.as_slice()),
            Refusal::DataTooBig => line(self.alloc, b"data too big"),
            Refusal::TextTooBig => line(self.alloc, b"text too big"),
            Refusal::UnsupportedAt(site) => self.site(site, b"unsupported"),
            Refusal::TlsAt(site) => self.site(site, b"thread-local storage"),
            Refusal::BadSite(site) => self.site(site, b"bad relocation site"),
            Refusal::NotCode(site) => self.site(site, b"branch target is not code"),
            Refusal::NoRestore(site) => self.site(site, b"no nop to restore r2"),
            Refusal::StubReach(site) => self.site(site, b"stub out of reach"),
            Refusal::UnknownReloc(site, n) => self.site_number(site, b"unknown relocation ", *n),
            Refusal::Unresolved(name, site) => self.site_name(
                site,
                b"unresolved ",
                name.as_slice(),
            ),
            Refusal::Overflow(site, value) => self.site_value(site, b"overflow ", *value),
            Refusal::BadArchive(file, at) => self.file_offset(*file, b"bad archive at 0x", *at),
            Refusal::TooManyFiles => line(self.alloc, b"too many files"),
            Refusal::Memory => Err(Memory),
        }
    }
}

/// The line of a refusal of files with these names. That memory was refused has no line, and is an error here too.
pub fn refusal_line(alloc: Global, names: &[String], refusal: &Refusal) -> Result<Vec<u8>, Memory>
    ensures line { IfOk result (λ text. text.items ≡ refusal_line (texts names.now) refusal.now) }
    ensures stated { OnOk result (refusal.now ≢ Refusal.Memory) }
{
    let of = Lines {
        alloc,
        names: FileNames::Words(names),
    };
    of.refusal(refusal)
}

/// The line of a refusal of these files.
pub fn job_line(alloc: Global, files: &[FileBytes], refusal: &Refusal) -> Result<Vec<u8>, Memory>
    ensures line { IfOk result (λ text.
        text.items ≡ refusal_line (names_of_files files.now) refusal.now) }
    ensures stated { OnOk result (refusal.now ≢ Refusal.Memory) }
{
    let of = Lines {
        alloc,
        names: FileNames::Files(files),
    };
    of.refusal(refusal)
}

/// The line of a refusal of the file with this name.
pub fn fault_line(alloc: Global, name: &[u8], refusal: &Refusal) -> Result<Vec<u8>, Memory>
    ensures line { IfOk result (λ text.
        text.items ≡ fault_line (named_refusal name.now refusal.now)) }
    ensures stated { OnOk result (refusal.now ≢ Refusal.Memory) }
{
    let of = Lines {
        alloc,
        names: FileNames::One(name),
    };
    of.refusal(refusal)
}
