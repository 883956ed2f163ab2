// A small object file, and what is said of it where a number or two are others.
ghost use Rattle.std.specs.Prelude.{◌≤◌, length};

use crate::{FileBytes, ObjectSet, RecordId, Refusal, SectionId, Sort, SymbolId};
use elf64_records::Place;
use std::alloc::{AllocError, Global};
use std::test::Fail;

/// Bytes, and the place in a file where they stand.
type Part = (u16, &'static [u8]);

/// A number, with its place in the file and its width in bytes before it.
type Change = (u16, u8, u64);

/// A file with a text section of three instructions and one symbol, `_start`: the file header, the bytes of four sections from 64 on,
/// and five section headers from 176 on. Symbol 1 is at 104 and the header of section 1 at 240. Behind
/// them, at 520 and 544, there are two symbols more.
const SMALL: [Part; 37] = [
    (0, b"\x7fELF\x02\x01\x01"),
    (16, b"\x01\x00\x15\x00\x01"),
    (40, b"\xb0"),
    (48, b"\x02"),
    (52, b"\x40"),
    (58, b"\x40\x00\x05\x00\x04"),
    (64, b"\x01\x00\x00\x38\x07\x00\x60\x38\x02\x00\x00\x44"),
    (104, b"\x01\x00\x00\x00\x12\x00\x01\x00"),
    (120, b"\x0c"),
    (129, b"_start"),
    (137, b".text\x00.symtab\x00.strtab\x00.shstrtab"),
    (240, b"\x01"),
    (244, b"\x01"),
    (248, b"\x06"),
    (264, b"\x40"),
    (272, b"\x0c"),
    (288, b"\x04"),
    (304, b"\x07"),
    (308, b"\x02"),
    (328, b"\x50"),
    (336, b"\x30"),
    (344, b"\x03"),
    (348, b"\x01"),
    (352, b"\x08"),
    (360, b"\x18"),
    (368, b"\x0f"),
    (372, b"\x03"),
    (392, b"\x80"),
    (400, b"\x08"),
    (416, b"\x01"),
    (432, b"\x17"),
    (436, b"\x03"),
    (456, b"\x88"),
    (464, b"\x21"),
    (480, b"\x01"),
    (520, b"\x01\x00\x00\x00\x12\x00\x01\x00"),
    (544, b"\x01\x00\x00\x00\x12\x00\x01\x00"),
];

/// Puts bytes at a place, and says whether they all fit.
fn put(b: &mut [u8], at: u16, bytes: &[u8]) -> bool {
    for (k, byte) in bytes.iter().enumerate() {
        if k >= b.len() || usize::from(at) >= b.len() - k {
            return false;
        }
        b[usize::from(at) + k] = *byte;
    }
    true
}

/// The small file with other numbers.
fn small_with(alloc: Global, changes: &[Change]) -> Result<FileBytes, AllocError> {
    let mut b = [0u8; 568];
    for (at, bytes) in SMALL {
        if !put(&mut b, at, bytes) {
            return Err(AllocError);
        }
    }
    for (at, width, number) in changes {
        let bytes = number.to_le_bytes();
        if !put(&mut b, *at, &bytes[..usize::from((*width).min(8))]) {
            return Err(AllocError);
        }
    }
    Ok(FileBytes {
        name: String::from_str(alloc, "small.o")?,
        bytes: Vec::from_slice(alloc, &b)?,
    })
}

/// What a refusal is, but for those of names and of records.
#[derive(Clone, Copy, Debug, PartialEq, Eq)]
enum Why {
    Fault,
    Unsupported,
    Tls,
    Section,
    Align,
    Symbol,
}

/// What a refusal is, the file's number and the place in the file.
type Refused = Option<(Why, u32, Place)>;

fn refused(alloc: Global, files: &[FileBytes]) -> Refused
    requires { length files.now ≤ 4096 }
{
    match ObjectSet::take(alloc, files) {
        Ok(_) => None,
        Err(Refusal::Unsupported(file, place)) => Some((Why::Unsupported, file, place)),
        Err(Refusal::Tls(file, place)) => Some((Why::Tls, file, place)),
        Err(Refusal::BadSection(file, i)) => Some((Why::Section, file, Place::Section(i))),
        Err(Refusal::BadAlign(file, place)) => Some((Why::Align, file, place)),
        Err(Refusal::BadSymbol(file, j)) => Some((Why::Symbol, file, Place::Symbol(j))),
        Err(_) => Some((Why::Fault, 0, Place::File)),
    }
}

const OK: Refused = None;

/// No change.
const NONE: Change = (0, 0, 0);

/// Section 1 is called `.toc`.
const TOC: Change = (139, 3, 0x63_6F);

/// Symbol 1 is called `.TOC.`.
const TOC_BASE: Change = (129, 6, 0x2E43_4F54_2E);

/// Section 1 is data that may be written.
const DATA: Change = (248, 8, 3);

/// Section 1 isn't kept.
const DROPPED: Change = (248, 8, 0);

const UNSUPPORTED_SECTION: Refused = Some((Why::Unsupported, 0, Place::Section(1)));

const TLS_SECTION: Refused = Some((Why::Tls, 0, Place::Section(1)));

const BAD_SECTION: Refused = Some((Why::Section, 0, Place::Section(1)));

const BAD_SECTION_3: Refused = Some((Why::Section, 0, Place::Section(3)));

const BAD_SECTION_ALIGN: Refused = Some((Why::Align, 0, Place::Section(1)));

/// Numbers in the small file, and how the file that has them is refused for a section of it.
const SECTIONS: [([Change; 2], Refused); 57] = [
    // types that are left out, kept or not
    ([(244, 4, 9), NONE], UNSUPPORTED_SECTION),
    ([(244, 4, 17), NONE], UNSUPPORTED_SECTION),
    ([(244, 4, 18), NONE], UNSUPPORTED_SECTION),
    ([(244, 4, 9), DROPPED], UNSUPPORTED_SECTION),
    ([(244, 4, 17), DROPPED], UNSUPPORTED_SECTION),
    ([(244, 4, 10), DROPPED], OK),
    ([(244, 4, 9), (248, 8, 0x406)], UNSUPPORTED_SECTION),
    ([(180, 4, 9), NONE], OK),
    // thread-local storage
    ([(248, 8, 0x406), NONE], TLS_SECTION),
    ([(248, 8, 0x403), NONE], TLS_SECTION),
    ([(248, 8, 0x404), NONE], OK),
    ([(248, 8, 0x403), (244, 4, 5)], TLS_SECTION),
    // types of kept sections
    ([(244, 4, 0), NONE], BAD_SECTION),
    ([(244, 4, 3), NONE], BAD_SECTION),
    ([(244, 4, 4), NONE], BAD_SECTION),
    ([(244, 4, 5), NONE], BAD_SECTION),
    ([(244, 4, 16), NONE], BAD_SECTION),
    ([(244, 4, 0x101), NONE], BAD_SECTION),
    ([(244, 4, 7), NONE], OK),
    ([(244, 4, 14), NONE], OK),
    ([(244, 4, 15), NONE], OK),
    ([(244, 4, 5), DROPPED], OK),
    ([(376, 8, 2), NONE], BAD_SECTION_3),
    ([(184, 8, 2), NONE], OK),
    // compressed sections
    ([(248, 8, 0x806), NONE], UNSUPPORTED_SECTION),
    ([(248, 8, 0x804), NONE], OK),
    ([(248, 8, 0x806), (244, 4, 5)], BAD_SECTION),
    ([(248, 8, 0x807), NONE], UNSUPPORTED_SECTION),
    // text
    ([(248, 8, 7), NONE], BAD_SECTION),
    ([(244, 4, 8), NONE], BAD_SECTION),
    ([(272, 8, 11), NONE], BAD_SECTION),
    ([(272, 8, 10), NONE], BAD_SECTION),
    ([(272, 8, 8), NONE], OK),
    ([(272, 8, 11), DATA], OK),
    ([(244, 4, 8), DATA], OK),
    ([(248, 8, 2), NONE], OK),
    ([(248, 8, 0x1036), NONE], OK),
    // `.toc`
    ([TOC, NONE], BAD_SECTION),
    ([TOC, DATA], OK),
    ([TOC, (248, 8, 2)], OK),
    ([TOC, DROPPED], OK),
    ([(137, 1, 0x2D), DATA], OK),
    // alignments
    ([(288, 8, 0), NONE], OK),
    ([(288, 8, 1), NONE], OK),
    ([(288, 8, 3), NONE], BAD_SECTION_ALIGN),
    ([(288, 8, 12), NONE], BAD_SECTION_ALIGN),
    ([(288, 8, 0x1_0000), NONE], OK),
    ([(288, 8, 0x1_0001), NONE], BAD_SECTION_ALIGN),
    ([(288, 8, 0x2_0000), NONE], BAD_SECTION_ALIGN),
    ([(288, 8, 0x1_0000_0000), NONE], BAD_SECTION_ALIGN),
    ([(288, 8, 1 << 63), NONE], BAD_SECTION_ALIGN),
    ([(288, 8, 3), DROPPED], OK),
    ([(288, 8, 0x2_0000), DATA], BAD_SECTION_ALIGN),
    ([(288, 8, 3), (376, 8, 2)], BAD_SECTION_ALIGN),
    ([(272, 8, 11), (288, 8, 3)], BAD_SECTION),
    ([(288, 8, 3), (108, 1, 0x16)], BAD_SECTION_ALIGN),
    ([(416, 8, 3), NONE], OK),
];

/// The same of `.toc` that may be written.
const TOC_SECTIONS: [(Change, Refused); 6] = [
    ((244, 4, 8), BAD_SECTION),
    ((244, 4, 7), BAD_SECTION),
    ((244, 4, 14), BAD_SECTION),
    ((288, 8, 0x100), OK),
    ((288, 8, 0x200), BAD_SECTION_ALIGN),
    ((288, 8, 6), BAD_SECTION_ALIGN),
];

const UNSUPPORTED_SYMBOL: Refused = Some((Why::Unsupported, 0, Place::Symbol(1)));

const TLS_SYMBOL: Refused = Some((Why::Tls, 0, Place::Symbol(1)));

const BAD_SYMBOL: Refused = Some((Why::Symbol, 0, Place::Symbol(1)));

const BAD_SYMBOL_ALIGN: Refused = Some((Why::Align, 0, Place::Symbol(1)));

/// Numbers in the small file, and how the file that has them is refused for a symbol of it.
const SYMBOLS: [([Change; 2], Refused); 66] = [
    // types and bindings
    ([(108, 1, 0x16), NONE], TLS_SYMBOL),
    ([(108, 1, 0x06), (110, 2, 0)], TLS_SYMBOL),
    ([(108, 1, 0xA6), NONE], TLS_SYMBOL),
    ([(108, 1, 0x1A), NONE], UNSUPPORTED_SYMBOL),
    ([(108, 1, 0x3A), NONE], UNSUPPORTED_SYMBOL),
    ([(108, 1, 0xA2), NONE], UNSUPPORTED_SYMBOL),
    ([(108, 1, 0x32), NONE], BAD_SYMBOL),
    ([(108, 1, 0xF2), NONE], BAD_SYMBOL),
    ([(108, 1, 0x02), NONE], OK),
    ([(108, 1, 0x22), NONE], OK),
    ([(108, 1, 0x1F), NONE], OK),
    // symbol 0 counts as nothing
    ([(84, 1, 0x16), NONE], OK),
    ([(84, 1, 0xFA), (86, 2, 0xFFFF)], OK),
    ([(86, 2, 1), (88, 8, 13)], OK),
    // sections of symbols
    ([(110, 2, 0xFFFF), NONE], UNSUPPORTED_SYMBOL),
    ([(110, 2, 0xFF00), NONE], BAD_SYMBOL),
    ([(110, 2, 0xFFF0), NONE], BAD_SYMBOL),
    ([(110, 2, 0xFFF3), NONE], BAD_SYMBOL),
    ([(110, 2, 0xFEFF), NONE], BAD_SYMBOL),
    ([(110, 2, 5), NONE], BAD_SYMBOL),
    ([(110, 2, 4), NONE], OK),
    ([(110, 2, 0), NONE], OK),
    ([(110, 2, 0xFFF1), NONE], OK),
    // `.TOC.`
    ([TOC_BASE, NONE], BAD_SYMBOL),
    ([TOC_BASE, (110, 2, 0xFFF1)], BAD_SYMBOL),
    ([TOC_BASE, (110, 2, 0xFFF2)], BAD_SYMBOL),
    ([TOC_BASE, (110, 2, 3)], BAD_SYMBOL),
    ([TOC_BASE, (108, 1, 0x02)], BAD_SYMBOL),
    ([TOC_BASE, (110, 2, 0)], OK),
    ([TOC_BASE, (108, 4, 0x02)], OK),
    // common symbols
    ([(110, 2, 0xFFF2), NONE], BAD_SYMBOL_ALIGN),
    ([(110, 2, 0xFFF2), (112, 8, 1)], OK),
    ([(110, 2, 0xFFF2), (112, 8, 3)], BAD_SYMBOL_ALIGN),
    ([(110, 2, 0xFFF2), (112, 8, 0x1_0000)], OK),
    ([(110, 2, 0xFFF2), (112, 8, 0x2_0000)], BAD_SYMBOL_ALIGN),
    ([(110, 2, 0xFFF2), (112, 8, 1 << 63)], BAD_SYMBOL_ALIGN),
    ([(108, 4, 0xFFF2_0002), (112, 8, 4)], BAD_SYMBOL),
    ([(108, 4, 0xFFF2_0022), (112, 8, 4)], OK),
    // values
    ([(112, 8, 12), NONE], OK),
    ([(112, 8, 13), NONE], BAD_SYMBOL),
    ([(112, 8, 1 << 63), NONE], BAD_SYMBOL),
    ([(112, 8, 13), (108, 1, 0x02)], BAD_SYMBOL),
    ([(112, 8, 13), (110, 2, 0xFFF1)], OK),
    ([(112, 8, 13), (110, 2, 0)], OK),
    ([(112, 8, 13), DROPPED], OK),
    ([(112, 8, 12), DATA], OK),
    ([(112, 8, 13), DATA], BAD_SYMBOL),
    ([(112, 8, 3), NONE], OK),
    // entry points: one
    ([(109, 1, 0x20), NONE], OK),
    ([(109, 1, 0x3F), (112, 8, 12)], OK),
    // entry points: a global one, and a local one behind it
    ([(109, 1, 0x40), NONE], OK),
    ([(109, 1, 0x40), (112, 8, 4)], OK),
    ([(109, 1, 0x40), (112, 8, 2)], BAD_SYMBOL),
    ([(109, 1, 0x40), (112, 8, 8)], BAD_SYMBOL),
    ([(109, 1, 0x60), NONE], OK),
    ([(109, 1, 0x60), (112, 8, 4)], BAD_SYMBOL),
    ([(109, 1, 0x80), NONE], BAD_SYMBOL),
    ([(109, 1, 0x80), (272, 8, 20)], OK),
    ([(109, 1, 0xA0), (272, 8, 32)], BAD_SYMBOL),
    ([(109, 1, 0xA0), (272, 8, 36)], OK),
    ([(109, 1, 0xC0), (272, 8, 64)], BAD_SYMBOL),
    ([(109, 1, 0xC0), (272, 8, 68)], OK),
    // entry points that are reserved, and symbols of which they aren't read
    ([(109, 1, 0xE0), (272, 8, 256)], BAD_SYMBOL),
    ([(109, 1, 0xE0), DATA], OK),
    ([(109, 1, 0xE0), DROPPED], OK),
    ([(109, 1, 0xE0), (110, 2, 0xFFF1)], OK),
];

#[test]
fn sections_that_a_link_cannot_take_are_refused(rt: HostRuntime) -> Result<(), Fail> {
    for (i, (changes, expected)) in SECTIONS.iter().enumerate() {
        let file = [small_with(rt.alloc(), changes)?];
        assert_eq!(rt; refused(rt.alloc(), &file), *expected, "row {i}");
    }
    for (i, (change, expected)) in TOC_SECTIONS.iter().enumerate() {
        let file = [small_with(rt.alloc(), &[TOC, DATA, *change])?];
        assert_eq!(rt; refused(rt.alloc(), &file), *expected, "row {i} of `.toc`");
    }
    Ok(())
}

#[test]
fn symbols_that_a_link_cannot_take_are_refused(rt: HostRuntime) -> Result<(), Fail> {
    for (i, (changes, expected)) in SYMBOLS.iter().enumerate() {
        let file = [small_with(rt.alloc(), changes)?];
        assert_eq!(rt; refused(rt.alloc(), &file), *expected, "row {i}");
    }
    Ok(())
}

/// The file has three symbols, and the value of symbol 1 is past the end of its section.
const THREE_SYMBOLS: [Change; 3] = [(328, 8, 496), (336, 8, 72), (528, 8, 13)];

#[test]
fn the_first_refusal_is_the_one_that_is_said(rt: HostRuntime) -> Result<(), Fail> {
    let [table, size, past] = THREE_SYMBOLS;
    let file = [small_with(rt.alloc(), &THREE_SYMBOLS)?];
    assert_eq!(rt; refused(rt.alloc(), &file), BAD_SYMBOL);
    // what symbol 2 says by itself comes before where symbol 1 lies
    let file = [small_with(rt.alloc(), &[table, size, past, (548, 1, 0x16)])?];
    assert_eq!(rt;
        refused(rt.alloc(), &file),
        Some((Why::Tls, 0, Place::Symbol(2)))
    );
    let small = small_with(rt.alloc(), &[])?;
    let late = small_with(rt.alloc(), &[(244, 4, 9)])?;
    let files = [small, late];
    assert_eq!(rt;
        refused(rt.alloc(), &files),
        Some((Why::Unsupported, 1, Place::Section(1)))
    );
    // a fault of the second file comes before what the third one asks for
    let files = [
        small_with(rt.alloc(), &[])?,
        small_with(rt.alloc(), &[(0, 1, 0)])?,
        small_with(rt.alloc(), &[(244, 4, 9)])?,
    ];
    assert!(rt; matches!(ObjectSet::take(rt.alloc(), &files), Err(Refusal::NotElf(1))));
    Ok(())
}

/// Numbers in the small file, the sort of section 1 and its alignment.
const SORTS: [([Change; 2], Sort, u64); 10] = [
    ([NONE, NONE], Sort::Text, 4),
    ([(288, 8, 1), NONE], Sort::Text, 4),
    ([(288, 8, 64), NONE], Sort::Text, 64),
    ([(244, 4, 8), DATA], Sort::Zeroed, 4),
    ([(244, 4, 8), (248, 8, 2)], Sort::Zeroed, 4),
    ([TOC, DATA], Sort::Toc, 4),
    ([TOC, (248, 8, 2)], Sort::Toc, 4),
    ([(288, 8, 0), DATA], Sort::Writable, 1),
    ([(244, 4, 14), (248, 8, 2)], Sort::ReadOnly, 4),
    ([TOC, DROPPED], Sort::Dropped, 4),
];

#[test]
fn sections_are_of_the_first_sort_that_fits(rt: HostRuntime) -> Result<(), Fail> {
    for (i, (changes, sort, align)) in SORTS.iter().enumerate() {
        let file = [small_with(rt.alloc(), changes)?];
        let set = ObjectSet::take(rt.alloc(), &file).expect(&rt, "an object file");
        assert_eq!(rt; set.file_count(), 1);
        assert_eq!(rt; set.view(0).section_count(), 5);
        assert_eq!(rt; set.sort_of(0, 1), *sort, "row {i}");
        assert_eq!(rt; set.align_of(0, 1), *align, "row {i}");
        assert_eq!(rt; set.sort_of(0, 0), Sort::Dropped);
        assert_eq!(rt; set.sort_of(0, 4), Sort::Dropped);
    }
    Ok(())
}

#[test]
fn many_files_are_taken(rt: HostRuntime) -> Result<(), Fail> {
    let mut files = Vec::new(rt.alloc());
    for k in 0..4096 {
        files.push(small_with(rt.alloc(), &[(64, 4, k)])?)?;
    }
    assert_eq!(rt; files.len(), 4096);
    let set = ObjectSet::take(rt.alloc(), files.as_slice()).expect(&rt, "object files");
    assert_eq!(rt; set.file_count(), 4096);
    assert_eq!(rt; set.view(4095).section_count(), 5);
    assert_eq!(rt;
        set.view(4095).section(1).bytes,
        b"\xff\x0f\x00\x00\x07\x00\x60\x38\x02\x00\x00\x44".as_slice()
    );
    Ok(())
}

/// The file has a section more, which holds one relocation record of section 1.
const WITH_RECORD: [Change; 8] = [
    (60, 2, 6),
    (500, 4, 4),
    (520, 8, 64),
    (528, 8, 24),
    (536, 4, 2),
    (540, 4, 1),
    (544, 8, 8),
    (552, 8, 24),
];

fn sections_passed(alloc: Global, set: &ObjectSet) -> Result<String, Fail> {
    let mut text = String::new(alloc);
    for SectionId { file, section } in set.sections() {
        let place = format!(in alloc; "{file}:{section} ")?;
        text.push_str(&place)?;
    }
    Ok(text)
}

fn symbols_passed(alloc: Global, set: &ObjectSet) -> Result<String, Fail> {
    let mut text = String::new(alloc);
    for SymbolId { file, symbol } in set.symbols() {
        let place = format!(in alloc; "{file}:{symbol} ")?;
        text.push_str(&place)?;
    }
    Ok(text)
}

fn records_passed(alloc: Global, set: &ObjectSet) -> Result<String, Fail> {
    let mut text = String::new(alloc);
    for RecordId {
        file,
        table,
        entry,
        section,
    } in set.records() {
        let place = format!(in alloc; "{file}:{table}:{entry} of {section} ")?;
        text.push_str(&place)?;
    }
    Ok(text)
}

#[test]
fn walks_pass_each_section_symbol_and_record_in_order(rt: HostRuntime) -> Result<(), Fail> {
    let alloc = rt.alloc();
    let files = [small_with(alloc, &[])?, small_with(alloc, &WITH_RECORD)?];
    let set = ObjectSet::take(alloc, &files).expect(&rt, "object files");
    assert_eq!(rt;
        sections_passed(alloc, &set)?.as_str(),
        "0:0 0:1 0:2 0:3 0:4 1:0 1:1 1:2 1:3 1:4 1:5 "
    );
    assert_eq!(rt; symbols_passed(alloc, &set)?.as_str(), "0:0 0:1 1:0 1:1 ");
    assert_eq!(rt; records_passed(alloc, &set)?.as_str(), "1:5:0 of 1 ");
    Ok(())
}
