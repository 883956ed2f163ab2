// What the relocation records of a file ask for: pairs whose words agree, and loads of addresses from slots.
ghost use Rattle.std.specs.Prelude.{◌≡◌, ◌<◌, ◌-◌, ◌==◌, ℕ, pos, IfOk, IfSome, IfNone, OnOk, length};
ghost use Rattle.elf64_records.specs.FileHeader.{e_shnum};
ghost use Rattle.elf64_records.specs.Records.{rela_of, record_count};
ghost use Rattle.elf64_records.specs.Sections.{section_bytes, sh_info};
ghost use Rattle.elf64_records.specs.Symbols.{symbol_count};
ghost use Rattle.object_set.specs.Files.{file_at};
ghost use Rattle.object_set.specs.Walks.{IsRecord};
ghost use Rattle.symbol_table.specs.Targets.{definition_of};
ghost use Rattle.symbol_table.specs.Text.{text_number};
ghost use Rattle.pcrel_rewrite.specs.Pairs.{is_number};
ghost use Rattle.pcrel_rewrite.specs.Words.{ArePairWords};
ghost use Rattle.pcrel_rewrite.specs.inside.Joins.{Before};
ghost use Rattle.pcrel_rewrite.specs.inside.Gathered.{IsAskedBy, IsLoadBy, Gathers, AskedIn, LoadedIn, IsGathered};

use crate::text_pairs::TextPair;
use crate::words::are_pair_words;
use object_set::RecordId;
use reloc_fields::Kind;
use std::alloc::{AllocError, Global};
use symbol_table::{CodePlace, Resolved, is_of_kind};

/// What records ask for.
#[derive(Drop)]
pub struct Gathered {
    /// Pairs that records name, and whose words agree.
    pub asked: Vec<TextPair>,
    /// Places of loads from slots, of symbols that don't stand for numbers.
    pub loads: Vec<CodePlace>,
}

/// Whether what a symbol stands for is a number.
fn is_number(resolved: &Resolved, file: u32, symbol: u32) -> bool
    requires file { file < length resolved.now.files }
    requires symbol { symbol < symbol_count (file_at resolved.now.files file) }
    ensures { result ≡ is_number resolved.now.files (definition_of resolved.now.files file symbol) }
{
    match resolved.definition(file, symbol) {
        Some((file, symbol)) => resolved.set().is_absolute(file, symbol),
        None => false,
    }
}

/// Where the access stands so many bytes behind a load, if the words of both and those between agree.
fn tail_behind(bytes: &[u8], head: u64, addend: i64) -> Option<u64>
    ensures some { IfSome result (λ tail. ArePairWords bytes.now head tail) }
    ensures distance { IfSome result (λ tail. addend ≡ pos (tail - head)) }
    ensures none { IfNone result ((tail : ℕ) → addend ≡ pos (tail - head) →
        ¬ ArePairWords bytes.now head tail) }
{
    if addend < 8 || addend > 128 || addend % 4 != 0 {
        return None;
    }
    let distance = addend as u64;
    let size = bytes.len() as u64;
    if size < distance + 4 || size - distance - 4 < head {
        return None;
    }
    let tail = head + distance;
    if are_pair_words(bytes, head as usize, tail as usize) {
        Some(tail)
    } else {
        None
    }
}

impl Gathered {
    /// Takes in what a record asks for.
    fn add_record(
        &mut self,
        resolved: &Resolved,
        id: RecordId,
        section: u32,
        bytes: &[u8],
    ) -> Result<(), AllocError>
        requires record { IsRecord resolved.now.files id }
        requires section { text_number resolved.now.files id.file id.section ≡ Some section }
        requires bytes { let b = file_at resolved.now.files id.file in
            bytes.now ≡ section_bytes b id.section }
        ensures { let files = resolved.now.files in
            OnOk result (Gathers (IsAskedBy files id) (IsLoadBy files id) self.old self.new) }
    {
        let rela = resolved.set().view(id.file).rela(id.table, id.entry);
        if is_of_kind(rela.kind, Kind::PcrelOpt) {
            if let Some(tail) = tail_behind(bytes, rela.offset, rela.addend) {
                self.asked.push(TextPair {
                    section,
                    head: rela.offset,
                    tail,
                })?;
            }
        } else if is_of_kind(rela.kind, Kind::GotPcrel34)
            && !is_number(resolved, id.file, rela.symbol)
        {
            self.loads.push(CodePlace {
                section,
                offset: rela.offset,
            })?;
        }
        Ok(())
    }

    /// Takes in what the records of a text section ask for that a section holds.
    fn add_records(
        &mut self,
        resolved: &Resolved,
        file: u32,
        table: u32,
        section: u32,
        number: u32,
    ) -> Result<(), AllocError>
        requires file { file < length resolved.now.files }
        requires table { table < e_shnum (file_at resolved.now.files file) }
        requires about { section ≡ sh_info (file_at resolved.now.files file) table }
        requires section { section < e_shnum (file_at resolved.now.files file) }
        requires text { text_number resolved.now.files file section ≡ Some number }
        ensures { let files = resolved.now.files in
            OnOk result (
            Gathers (AskedIn files file table) (LoadedIn files file table) self.old self.new) }
    {
        let view = resolved.set().view(file);
        let bytes = view.section(section).bytes;
        for entry in 0..view.record_count(table) {
            let id = RecordId {
                file,
                table,
                entry,
                section,
            };
            self.add_record(resolved, id, number, bytes)?;
        }
        Ok(())
    }

    /// Takes in what the records ask for that a section holds, if they are about text.
    fn add_table(&mut self, resolved: &Resolved, file: u32, table: u32) -> Result<(), AllocError>
        requires file { file < length resolved.now.files }
        requires table { table < e_shnum (file_at resolved.now.files file) }
        ensures { let files = resolved.now.files in
            OnOk result (
            Gathers (AskedIn files file table) (LoadedIn files file table) self.old self.new) }
    {
        let set = resolved.set();
        // no file of a set is refused, so that what records are about is a section of their file
        let _files = set.file_count();
        let view = set.view(file);
        if view.record_count(table) == 0 {
            return Ok(());
        }
        let section = view.section_header(table).info;
        match resolved.text_number(file, section) {
            Some(number) => self.add_records(resolved, file, table, section, number),
            None => Ok(()),
        }
    }

    /// What the records of a file ask for.
    pub fn of_file(alloc: Global, resolved: &Resolved, file: u32) -> Result<Gathered, AllocError>
        requires { file < length resolved.now.files }
        ensures { IfOk result (IsGathered resolved.now.files file) }
    {
        let mut gathered = Gathered {
            asked: Vec::new(alloc),
            loads: Vec::new(alloc),
        };
        for table in 0..resolved.set().view(file).section_count() {
            gathered.add_table(resolved, file, table)?;
        }
        Ok(gathered)
    }
}
