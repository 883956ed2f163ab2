// Which files are orderly.
ghost use Rattle.std.specs.Prelude.{◌≡◌, ◌<◌, not, IfOk, length, map};
ghost use Rattle.std.specs.List.{list_any, range_with_len};
ghost use Rattle.elf64_records.specs.FileHeader.{e_shnum};
ghost use Rattle.elf64_records.specs.Records.{record_count};
ghost use Rattle.object_set.specs.Files.{file_at};
ghost use Rattle.object_set.specs.Walks.{records_in};
ghost use Rattle.toc_rewrite.specs.Folds.{is_orderly};
ghost use Rattle.toc_rewrite.specs.inside.Tables.{is_unsuited_record};

use crate::laid::Laid;
use object_set::RecordId;
use std::alloc::{AllocError, Global};

impl<'l, 'a, 'b> Laid<'l, 'a, 'b> {
    /// Whether an orderly file may have the records that a section holds.
    fn is_orderly_table(&self, file: u32, table: u32) -> bool
        requires file { file < length self.now.files }
        requires table { table < e_shnum (file_at self.now.files file) }
        ensures { let b = file_at self.now.files file in
            let records = records_in file b table (record_count b table) in
            result ≡ not (list_any (is_unsuited_record self.now.files) records) }
    {
        let view = self.resolved().set().view(file);
        let count = view.record_count(table);
        if count == 0 {
            return true;
        }
        let first = RecordId {
            file,
            table,
            entry: 0,
            section: view.section_header(table).info,
        };
        let bytes = view.section(self.section(first)).bytes;
        for entry in 0..count {
            if !self.is_suited(RecordId { entry, ..first }, bytes) {
                return false;
            }
        }
        true
    }

    /// Whether a file is orderly.
    fn is_orderly(&self, file: u32) -> bool
        requires { file < length self.now.files }
        ensures { result ≡ is_orderly self.now.files file }
    {
        for table in 0..self.resolved().set().view(file).section_count() {
            if !self.is_orderly_table(file, table) {
                return false;
            }
        }
        true
    }

    /// Whether each of the files is orderly.
    pub fn orderly_files(&self, alloc: Global) -> Result<Vec<bool>, AllocError>
        ensures { let files = self.now.files in IfOk result (λ orderly.
            orderly.items ≡ map (is_orderly files) (range_with_len 0 (length files))) }
    {
        let mut orderly = Vec::new(alloc);
        for file in 0..self.resolved().set().file_count() {
            orderly.push(self.is_orderly(file))?;
        }
        Ok(orderly)
    }
}
