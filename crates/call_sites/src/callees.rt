// How the calls of files come to their callees.
ghost use Rattle.std.specs.Prelude.{◌≡◌, ◌<◌, ◌≤◌, ◌+◌, ◌++◌, ◌%◌, ◌^◌, ◌==◌, pos, None, Some, IfOk, OnOk, length, map, slice_index, unwrap_or};
ghost use Rattle.std.specs.Ordering.{int_eq};
ghost use Rattle.ppc_bytes.specs.Bytes.{number_at};
ghost use Rattle.elf64_records.specs.Sections.{section_bytes, sh_size};
ghost use Rattle.elf64_records.specs.Symbols.{symbol_count};
ghost use Rattle.object_set.specs.Files.{file_at};
ghost use Rattle.object_set.specs.Refusals.{set_refusal};
ghost use Rattle.symbol_table.specs.Records.{records_refusal};
ghost use Rattle.symbol_table.specs.Targets.{definition_of};
ghost use Rattle.symbol_table.specs.Text.{text_sections, text_index};
ghost use Rattle.symbol_table.specs.laws.Text.{IsTextSection};
ghost use Rattle.call_sites.specs.declared.class.Linkage.TheVariants.{WithToc};
ghost use Rattle.call_sites.specs.Sites.{text_section, is_recognised, facts_of, field_linkage, definition_entries, callee_entries, callee_of, call_of_nothing, call_of, call_target, call_site, call_sites, has_slot};
ghost use Rattle.call_sites.specs.laws.SoundCalls.{IsSoundCall};
ghost use Rattle.call_sites.specs.inside.Calls.{IsCall, AreFacts, MayEnter, file_calls};
ghost use Rattle.call_sites.specs.inside.Ready.{text_bytes, bytes_of, file_of, files_of};

use crate::calls::{file_calls, linkage_of};
use crate::class::{Callee, Linkage, changes_r2, class_of, entry_offset};
use crate::site::CallSite;
use elf64_records::Rela;
use object_set::{SectionId, Site};
use ppc_bytes::constants::NOP;
use ppc_bytes::word_at;
use std::alloc::{AllocError, Global};
use std::marker::Model;
use symbol_table::{Prologues, RecordField, Resolved, Target};

/// The bytes of a text section, which contracts see.
#[derive(Drop)]
struct TextBytes<'a> {
    bytes: &'a [u8],
}

impl<'a> Model for TextBytes<'a> {
    ghost use Rattle.std.specs.Prelude.{List, ℕ};

    ghost Value = { List ℕ };

    ghost view = { λ t. t.bytes.now };
}

/// The files of a link, with what tells how their calls come to their callees. Contracts see the files and their TOC groups.
#[derive(Drop)]
pub struct Calls<'r, 'a, 'b> {
    res: &'r Resolved<'a, 'b>,
    groups: &'r [u32],
    /// The bytes of each text section. To ask the file for them reads the section's name each time.
    texts: Vec<TextBytes<'a>>,
    /// The prologues of each file.
    prologues: Vec<Prologues<'a, 'b>>,
}

impl<'r, 'a, 'b> Model for Calls<'r, 'a, 'b> {
    ghost use Rattle.call_sites.specs.inside.Ready.{GroupedFiles, IsReady};

    ghost Value = { GroupedFiles };

    ghost view = { λ c. record { files = c.res.now.files; groups = c.groups.now } };

    ghost invariant = { λ c. IsReady c.res.now.files c.groups.now c.texts.items c.prologues.items };
}

/// A text section, by its number.
pub fn text_section(res: &Resolved, number: u32) -> SectionId
    requires { number < length (text_sections res.now.files) }
    ensures section { result ≡ text_section res.now.files number }
    ensures lies { IsTextSection res.now.files number result.file result.section }
{
    let (file, section) = res.text_of(number);
    SectionId { file, section }
}

/// The bytes of all text sections.
fn texts_of<'a>(alloc: Global, res: &Resolved<'a, '_>) -> Result<Vec<TextBytes<'a>>, AllocError>
    ensures { IfOk result (λ texts. texts.items ≡ text_bytes res.now.files) }
{
    let mut texts = Vec::new(alloc);
    for number in 0..res.text_count() {
        let SectionId { file, section } = text_section(res, number);
        let bytes = res.set().view(file).section(section).bytes;
        texts.push(TextBytes { bytes })?;
    }
    Ok(texts)
}

/// The prologues of all files.
fn prologues_of<'a, 'b>(
    alloc: Global,
    res: &Resolved<'a, 'b>,
) -> Result<Vec<Prologues<'a, 'b>>, AllocError>
    ensures { IfOk result (λ prologues. prologues.items ≡ files_of res.now.files) }
{
    let set = res.set();
    let mut prologues = Vec::new(alloc);
    for file in 0..set.file_count() {
        prologues.push(Prologues::of_file(alloc, set, file)?)?;
    }
    Ok(prologues)
}

/// The entry points of the symbol for which a symbol stands.
fn definition_entries(res: &Resolved, file: u32, symbol: u32) -> u32
    requires file { file < length res.now.files }
    requires symbol { symbol < symbol_count (file_at res.now.files file) }
    ensures { let definition = definition_of res.now.files file symbol in
        result ≡ definition_entries res.now.files definition }
{
    match res.definition(file, symbol) {
        Some((file, symbol)) => u32::from(res.set().view(file).symbol_entry(symbol).other >> 5),
        None => 0,
    }
}

/// Whether an addend is 0.
fn is_zero(addend: i64) -> bool
    ensures { result ≡ int_eq addend (pos 0) }
{
    addend == 0
}

/// Whether the branch at an offset of a section's bytes sets LR.
fn is_link(bytes: &[u8], offset: u64) -> bool
    requires { offset + 4 ≤ length bytes.now }
    ensures { result ≡ (number_at 4 bytes.now offset % 2 == 1) }
{
    word_at(bytes, offset as usize) % 2 == 1
}

impl<'r, 'a, 'b> Calls<'r, 'a, 'b> {
    /// The bytes of a text section.
    fn bytes(&self, number: u32) -> &'a [u8]
        requires { number < length (text_sections self.now.files) }
        ensures { result.now ≡ bytes_of self.now.files (text_section self.now.files number) }
    {
        self.texts[number as usize].bytes
    }

    /// The prologues of a file.
    fn prologues(&self, file: u32) -> &Prologues<'a, 'b>
        requires { file < length self.now.files }
        ensures { result.now ≡ file_of self.now.files file }
    {
        &self.prologues[file as usize]
    }

    /// Whether a place of text has a recognised prologue.
    fn is_recognised(&self, number: u32, offset: u64) -> bool
        requires { number < length (text_sections self.now.files) }
        ensures { result ≡ is_recognised self.now.files number offset }
    {
        let SectionId { file, section } = text_section(self.res, number);
        self.prologues(file).is_recognised(section, offset)
    }

    /// What the record of a call says.
    fn rela(&self, call: RecordField) -> Rela
        requires { IsCall self.now.files call }
        ensures facts { let facts = facts_of (file_at self.now.files call.id.file) call in
            AreFacts facts result }
        ensures known { result.symbol < symbol_count (file_at self.now.files call.id.file) }
    {
        self.res
            .set()
            .view(call.id.file)
            .rela(call.id.table, call.id.entry)
    }

    /// The entry points of a call's callee.
    fn entries(&self, call: RecordField) -> u32
        requires { IsCall self.now.files call }
        ensures { result ≡ callee_entries self.now.files call }
    {
        let rela = self.rela(call);
        if is_zero(rela.addend) {
            definition_entries(self.res, call.id.file, rela.symbol)
        } else {
            0
        }
    }

    /// The TOC group of a file.
    fn group(&self, file: u32) -> u32
        requires { file < length self.now.files }
        ensures { result ≡ slice_index self.now.groups file }
    {
        self.groups[file as usize]
    }

    /// The callee of a call that goes to a place of text.
    fn callee(&self, call: RecordField, number: u32, offset: u64) -> Callee
        requires call { IsCall self.now.files call }
        requires number { number < length (text_sections self.now.files) }
        ensures { result ≡ callee_of self.now.files self.now.groups call number offset }
    {
        let SectionId { file, .. } = text_section(self.res, number);
        Callee {
            entries: self.entries(call),
            recognised: self.is_recognised(number, offset),
            same_group: self.group(file) == self.group(call.id.file),
        }
    }

    /// The number of the text section in which a call stands.
    fn number(&self, call: RecordField) -> u32
        requires { IsCall self.now.files call }
        ensures index { result ≡ text_index self.now.files call.id.file call.id.section }
        ensures within { result < length (text_sections self.now.files) }
        ensures section { text_section self.now.files result
            ≡ record { file = call.id.file; section = call.id.section } }
        ensures sound { IsSoundCall self.now.files call }
        ensures whole { set_refusal self.now.files ≡ None }
    {
        match self.res.text_number(call.id.file, call.id.section) {
            Some(number) => number,
            None => 0,
        }
    }

    /// The bytes of the section in which a call stands.
    fn call_bytes(&self, call: RecordField) -> &'a [u8]
        requires { IsCall self.now.files call }
        ensures bytes { let b = file_at self.now.files call.id.file in
            result.now ≡ section_bytes b call.id.section }
        ensures size { let b = file_at self.now.files call.id.file in
            length result.now ≡ sh_size b call.id.section }
        ensures within { call.start + 4 ≤ length result.now }
    {
        self.bytes(self.number(call))
    }

    /// Whether the word behind a call is a restore slot.
    fn has_slot(&self, call: RecordField) -> bool
        requires { IsCall self.now.files call }
        ensures { let b = file_at self.now.files call.id.file in
            result ≡ has_slot call.id.file b call.id.section call.start }
    {
        let bytes = self.call_bytes(call);
        let next = call.start + 4;
        is_link(bytes, call.start)
            && bytes.len() as u64 - next >= 4
            && word_at(bytes, next as usize) == NOP
            && !self
                .prologues(call.id.file)
                .fields()
                .has_any(call.id.section, next, 4)
    }

    /// A call as one that goes to nothing.
    fn call_of_nothing(&self, call: RecordField) -> CallSite
        requires { IsCall self.now.files call }
        ensures { result ≡ call_of_nothing self.now.files call }
    {
        let RecordField { id, start, .. } = call;
        CallSite {
            site: Site {
                file: id.file,
                table: id.table,
                entry: id.entry,
                section: id.section,
                offset: start,
            },
            section: self.number(call),
            offset: start,
            link: is_link(self.call_bytes(call), start),
            class: None,
            e: 0,
            callee: 0,
            to_section: 0,
            to_offset: 0,
            slot: self.has_slot(call),
            restore: false,
        }
    }

    /// How a call is linked.
    fn linkage(&self, call: RecordField) -> Linkage
        requires { IsCall self.now.files call }
        ensures { let b = file_at self.now.files call.id.file in
            result ≡ unwrap_or (field_linkage b call) WithToc }
    {
        linkage_of(self.rela(call).kind).unwrap_or(Linkage::WithToc)
    }

    /// A call that goes to a callee at a place of text.
    fn call_of(&self, call: RecordField, number: u32, offset: u64, callee: Callee) -> CallSite
        requires call { IsCall self.now.files call }
        requires entry { offset + 8 < 2 ^ 64 }
        ensures { result ≡ call_of self.now.files call number offset callee }
    {
        let linkage = self.linkage(call);
        let class = class_of(linkage, callee);
        CallSite {
            class: Some(class),
            e: callee.entries,
            callee: offset,
            to_section: number,
            to_offset: offset + entry_offset(linkage, callee),
            restore: changes_r2(class),
            ..self.call_of_nothing(call)
        }
    }

    /// Where a call goes.
    fn target(&self, call: RecordField) -> Target
        requires { IsCall self.now.files call }
        ensures target { call_target self.now.files call ≡ Some result }
        ensures enters { MayEnter self.now.files result }
    {
        let rela = self.rela(call);
        self.res.target(call.id.file, rela.symbol, rela.addend)
    }

    /// A call by where its record goes.
    fn site(&self, call: RecordField) -> CallSite
        requires { IsCall self.now.files call }
        ensures { result ≡ call_site self.now.files self.now.groups call }
    {
        match self.target(call) {
            Target::Code { section, offset } => {
                let callee = self.callee(call, section, offset);
                self.call_of(call, section, offset, callee)
            }
            Target::Data { .. }
            | Target::Number(_)
            | Target::TocBase { .. }
            | Target::WeakNone(_) => { self.call_of_nothing(call) }
        }
    }

    /// Puts the sites of a file behind others.
    fn push_file(
        &self,
        alloc: Global,
        sites: &mut Vec<CallSite>,
        file: u32,
    ) -> Result<(), AllocError>
        requires { file < length self.now.files }
        ensures { let calls = file_calls file (file_at self.now.files file) in
            OnOk result (sites.new.items
            ≡ sites.old.items ++ map (call_site self.now.files self.now.groups) calls) }
    {
        let calls = file_calls(alloc, self.res.set(), file)?;
        for call in &calls {
            sites.push(self.site(*call))?;
        }
        Ok(())
    }

    /// All call sites.
    pub fn all(&self, alloc: Global) -> Result<Vec<CallSite>, AllocError>
        ensures { IfOk result (λ sites.
            sites.items ≡ call_sites self.now.files self.now.groups) }
    {
        let mut sites = Vec::new(alloc);
        for file in 0..self.res.set().file_count() {
            self.push_file(alloc, &mut sites, file)?;
        }
        Ok(sites)
    }
}

/// Files whose calls can be gone through.
pub fn ready<'r, 'a, 'b>(
    alloc: Global,
    res: &'r Resolved<'a, 'b>,
    groups: &'r [u32],
) -> Result<Calls<'r, 'a, 'b>, AllocError>
    requires sound { records_refusal res.now.files ≡ None }
    requires groups { length groups.now ≡ length res.now.files }
    ensures { IfOk result (λ calls.
        calls ≡ record { files = res.entry.now.files; groups = groups.entry.now }) }
{
    // no file of a set is refused
    let _files = res.set().file_count();
    Ok(Calls {
        res,
        groups,
        texts: texts_of(alloc, res)?,
        prologues: prologues_of(alloc, res)?,
    })
}
