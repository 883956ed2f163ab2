// A file that isn't refused, and of what sort each of its sections is.
ghost use Rattle.std.specs.Prelude.{◌≡◌, ◌<◌, IfOk};
ghost use Rattle.elf64_records.specs.FileHeader.{e_shnum};
ghost use Rattle.object_set.specs.Sections.{sort_of};
ghost use Rattle.object_set.specs.inside.Sorts.{AreSorts};

use crate::sort::{Sort, sort_of};
use elf64_records::ObjectView;
use std::alloc::{AllocError, Global};
use std::marker::Model;

/// A file of a set, with the sort of each section, so that asking for it reads neither header nor name. Contracts see the file's bytes.
#[derive(Drop)]
pub struct TakenFile<'a> {
    view: ObjectView<'a>,
    sorts: Vec<Sort>,
}

impl<'a> Model for TakenFile<'a> {
    ghost use Rattle.std.specs.Prelude.{List, ℕ};
    ghost use Rattle.elf64_records.specs.FileHeader.{e_shnum};
    ghost use Rattle.object_set.specs.inside.Sorts.{AreSorts};

    ghost Value = { List ℕ };

    ghost view = { λ f. f.view };

    ghost invariant = { λ f. AreSorts f.view (e_shnum f.view) f.sorts.items };
}

/// The sort of each section of a file.
fn sorts_of(alloc: Global, view: &ObjectView) -> Result<Vec<Sort>, AllocError>
    ensures { IfOk result (λ sorts. AreSorts view.now (e_shnum view.now) sorts.items) }
{
    let mut sorts = Vec::new(alloc);
    for section in 0..view.section_count() {
        sorts.push(sort_of(view, section))?;
    }
    Ok(sorts)
}

impl<'a> TakenFile<'a> {
    /// A file, by its view.
    pub fn of(alloc: Global, view: ObjectView<'a>) -> Result<TakenFile<'a>, AllocError>
        ensures { IfOk result (λ file. file ≡ view.entry) }
    {
        let sorts = sorts_of(alloc, &view)?;
        Ok(TakenFile { view, sorts })
    }

    /// Its view.
    pub fn view(&self) -> &ObjectView<'a>
        ensures { result.now ≡ self.now }
    {
        &self.view
    }

    /// The sort of a section.
    pub fn sort_of(&self, section: u32) -> Sort
        requires { section < e_shnum self.now }
        ensures { result ≡ sort_of self.now section }
    {
        self.sorts[section as usize]
    }
}
