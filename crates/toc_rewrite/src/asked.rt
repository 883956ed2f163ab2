// The prologues of a file, where a record asks for them.
ghost use Rattle.std.specs.Prelude.{◌≡◌, ◌<◌, IfOk, length};
ghost use Rattle.elf64_records.specs.FileHeader.{e_shnum};
ghost use Rattle.object_set.specs.Files.{file_at};
ghost use Rattle.symbol_table.specs.Prologue.{has_recognised_prologue};

use object_set::ObjectSet;
use std::alloc::{AllocError, Global};
use std::marker::Model;
use symbol_table::Prologues;

/// The prologues of a file, which are found when the first record asks for one: in most files none does. Contracts see the file.
#[derive(Drop)]
pub struct AskedPrologues<'a, 'b> {
    set: &'b ObjectSet<'a>,
    file: u32,
    found: Option<Prologues<'a, 'b>>,
}

impl<'a, 'b> Model for AskedPrologues<'a, 'b> {
    ghost use Rattle.symbol_table.specs.inside.Fields.{FileOf};
    ghost use Rattle.toc_rewrite.specs.inside.Laid.{AreAsked};

    ghost Value = { FileOf };

    ghost view = { λ a. record { files = a.set.now; file = a.file } };

    ghost invariant = { λ a. AreAsked a.set.now a.file a.found };
}

impl<'a, 'b> AskedPrologues<'a, 'b> {
    /// Those of a file of a set.
    pub fn of_file(set: &'b ObjectSet<'a>, file: u32) -> Self
        requires { file < length set.now }
        ensures { result ≡ record { files = set.now; file = file } }
    {
        AskedPrologues {
            set,
            file,
            found: None,
        }
    }

    /// Whether a place of a section has a recognised prologue.
    pub fn is_recognised(
        &mut self,
        alloc: Global,
        section: u32,
        at: u64,
    ) -> Result<bool, AllocError>
        requires { section < e_shnum (file_at self.old.files self.old.file) }
        ensures recognised { let b = file_at self.old.files self.old.file in
            IfOk result (λ is. is ≡ has_recognised_prologue self.old.file b section at) }
        ensures same { self.new ≡ self.old }
    {
        match &self.found {
            Some(prologues) => Ok(prologues.is_recognised(section, at)),
            None => {
                let prologues = Prologues::of_file(alloc, self.set, self.file)?;
                let is = prologues.is_recognised(section, at);
                self.found = Some(prologues);
                Ok(is)
            }
        }
    }
}
