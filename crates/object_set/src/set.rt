// A set of object files.
ghost use Rattle.std.specs.Prelude.{◌≡◌, ◌<◌, ◌≤◌, IfOk, None, length};
ghost use Rattle.elf64_records.specs.declared.headers.TheConstants.{FILE_LIMIT};
ghost use Rattle.elf64_records.specs.First.{Refuses};
ghost use Rattle.elf64_records.specs.FileHeader.{e_shnum};
ghost use Rattle.object_set.specs.Files.{contents_of, file_at};
ghost use Rattle.object_set.specs.Sections.{sort_of, align_of};
ghost use Rattle.object_set.specs.Refusals.{Answers, file_refusal, set_refusal, fault_refusal, refusal_of};

use crate::files::FileBytes;
use crate::refusal::Refusal;
use crate::sections::check_sections;
use crate::sort::Sort;
use crate::symbols::check_symbols;
use crate::taken::TakenFile;
use elf64_records::{ElfFault, FILE_LIMIT, ObjectView};
use std::alloc::Global;
use std::marker::Model;

/// At most 4096 object files of which none is refused. Contracts see it as the list of the files' bytes. It borrows these bytes.
#[derive(Drop)]
pub struct ObjectSet<'a> {
    files: Vec<TakenFile<'a>>,
}

impl<'a> Model for ObjectSet<'a> {
    ghost use Rattle.std.specs.Prelude.{◌≡◌, ◌≤◌, List, ℕ, None, length};
    ghost use Rattle.object_set.specs.Refusals.{set_refusal};

    ghost Value = { List (List ℕ) };

    ghost view = { λ s. s.files.items };

    ghost invariant = { λ s. (set_refusal s.files.items ≡ None) × (length s.files.items ≤ 4096) };
}

/// The refusal of a file that has a fault.
pub fn refusal_of(file: u32, fault: ElfFault) -> Refusal
    ensures { result ≡ refusal_of file fault }
{
    match fault {
        ElfFault::NotElf => Refusal::NotElf(file),
        ElfFault::NotPpc64Le => Refusal::NotPpc64Le(file),
        ElfFault::SharedObject => Refusal::SharedObject(file),
        ElfFault::NotObject => Refusal::NotObject(file),
        ElfFault::BadAbi => Refusal::BadAbi(file),
        ElfFault::BadTable(place) => Refusal::BadTable(file, place),
    }
}

/// The view of an object file's bytes, or the refusal of the file's first fault.
#[tactic(auto, unfolding(crate::specs::Refusals::fault_refusal))]
pub fn whole_view<'a>(file: u32, bytes: &'a [u8]) -> Result<ObjectView<'a>, Refusal>
    requires { length bytes.now ≤ FILE_LIMIT }
    ensures refusal { Refuses result (fault_refusal file bytes.now) }
    ensures view { IfOk result (λ view. view ≡ bytes.now) }
{
    match ObjectView::read(bytes) {
        Ok(view) => Ok(view),
        Err(fault) => Err(refusal_of(file, fault)),
    }
}

/// The view of a file's bytes that a link can take, or the file's refusal.
#[tactic(auto, unfolding(crate::specs::Refusals::file_refusal))]
pub fn fit_view<'a>(file: u32, bytes: &'a [u8]) -> Result<ObjectView<'a>, Refusal>
    ensures refusal { Refuses result (file_refusal file bytes.now) }
    ensures view { IfOk result (λ view. view ≡ bytes.now) }
{
    if bytes.len() > FILE_LIMIT {
        return Err(Refusal::FileTooLong(file));
    }
    let view = whole_view(file, bytes)?;
    check_sections(file, &view)?;
    check_symbols(file, &view)?;
    Ok(view)
}

impl<'a> ObjectSet<'a> {
    /// The set of these files, or the first refusal: for each file in order of too many bytes, of the view's faults, of its
    /// sections and of its symbols.
    pub fn take(alloc: Global, files: &'a [FileBytes]) -> Result<ObjectSet<'a>, Refusal>
        requires { length files.now ≤ 4096 }
        ensures refusal { Answers result (set_refusal (contents_of files.now)) }
        ensures set { IfOk result (λ set. set ≡ contents_of files.now) }
    {
        let mut taken = Vec::new(alloc);
        for (number, file) in files.iter().enumerate() {
            let view = fit_view(number as u32, file.bytes.as_slice())?;
            taken.push(TakenFile::of(alloc, view)?)?;
        }
        Ok(ObjectSet { files: taken })
    }

    /// The number of files.
    pub fn file_count(&self) -> u32
        ensures count { result ≡ length self.now }
        ensures few { result ≤ 4096 }
        ensures whole { set_refusal self.now ≡ None }
    {
        self.files.len() as u32
    }

    /// The view of a file.
    pub fn view(&self, file: u32) -> &ObjectView<'a>
        requires { file < length self.now }
        ensures { result.now ≡ file_at self.now file }
    {
        self.files[file as usize].view()
    }

    /// The sort of a section of a file.
    pub fn sort_of(&self, file: u32, section: u32) -> Sort
        requires file { file < length self.now }
        requires section { section < e_shnum (file_at self.now file) }
        ensures { result ≡ sort_of (file_at self.now file) section }
    {
        self.files[file as usize].sort_of(section)
    }

    /// The alignment of a section of a file in bytes, at least 1, and at least 4 for text.
    pub fn align_of(&self, file: u32, section: u32) -> u64
        requires file { file < length self.now }
        requires section { section < e_shnum (file_at self.now file) }
        ensures { result ≡ align_of (file_at self.now file) section }
    {
        let least = if self.sort_of(file, section).is_text() {
            4
        } else {
            1
        };
        self.view(file).section_header(section).align.max(least)
    }
}
