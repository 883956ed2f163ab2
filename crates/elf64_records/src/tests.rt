// The smallest object file, its parts, and what is said of files that differ from it in a number or two.
ghost use Rattle.std.specs.Prelude.{◌≤◌, ◌≡◌, length};

mod views;

use crate::{ElfFault, ObjectView, Place, Rela, SymbolEntry};

/// Bytes, and the place in a file where they stand.
type Part = (u16, &'static [u8]);

/// A number, its width in bytes and the place in a file where it stands.
type Change = (u16, u8, u64);

/// A file of 496 bytes: the file header, the bytes of four sections, and five section headers.
const SMALLEST: [Part; 34] = [
    (0, b"\x7fELF\x02\x01\x01"),
    (16, b"\x01\x00\x15\x00\x01"),
    (40, b"\xb0"),
    (48, b"\x02"),
    (52, b"\x40"),
    (58, b"\x40\x00\x05\x00\x04"),
    (64, b"\x01\x00\x00\x38\x07\x00\x60\x38\x02\x00\x00\x44"),
    (104, b"\x01\x00\x00\x00\x12\x00\x01\x00"),
    (120, b"\x0c"),
    (129, b"_start"),
    (137, b".text\x00.symtab\x00.strtab\x00.shstrtab"),
    (240, b"\x01"),
    (244, b"\x01"),
    (248, b"\x06"),
    (264, b"\x40"),
    (272, b"\x0c"),
    (288, b"\x04"),
    (304, b"\x07"),
    (308, b"\x02"),
    (328, b"\x50"),
    (336, b"\x30"),
    (344, b"\x03"),
    (348, b"\x01"),
    (352, b"\x08"),
    (360, b"\x18"),
    (368, b"\x0f"),
    (372, b"\x03"),
    (392, b"\x80"),
    (400, b"\x08"),
    (416, b"\x01"),
    (432, b"\x17"),
    (436, b"\x03"),
    (456, b"\x88"),
    (
        464,
        b"\x21\x00\x00\x00\x00\x00\x00\x00\x00\x00\x00\x00\x00\x00\x00\x00\x01",
    ),
];

/// Section 1 holds two records about itself, behind all else: one with a negative addend, and one with the greatest numbers.
const RECORDS: [Part; 7] = [
    (244, b"\x04"),
    (264, b"\xf0\x01"),
    (272, b"\x30"),
    (280, b"\x02\x00\x00\x00\x01"),
    (296, b"\x18"),
    (
        496,
        b"\x08\x00\x00\x00\x00\x00\x00\x80\x26\x00\x00\x00\x01\x00\x00\x00\xfc\xff\xff\xff\xff\xff\xff\xff",
    ),
    (
        520,
        b"\x10\x00\x00\x00\x00\x00\x00\x00\xff\xff\xff\xff\x00\x00\x00\x00\x00\x00\x00\x00\x00\x00\x00\x80",
    ),
];

fn put(b: &mut [u8], at: u16, bytes: &[u8]) {
    for (k, byte) in bytes.iter().enumerate() {
        if k < b.len() && usize::from(at) < b.len() - k {
            b[usize::from(at) + k] = *byte;
        }
    }
}

/// The smallest file with other bytes at some places, and zeros behind it.
fn smallest_with(parts: &[Part]) -> [u8; 544] {
    let mut b = [0u8; 544];
    for (at, bytes) in SMALLEST {
        put(&mut b, at, bytes);
    }
    for (at, bytes) in parts {
        put(&mut b, *at, bytes);
    }
    b
}

fn change(b: &mut [u8], change: Change) {
    let (at, width, number) = change;
    let bytes = number.to_le_bytes();
    put(b, at, &bytes[..usize::from(width.min(8))]);
}

fn smallest(b: &[u8; 544]) -> &[u8]
    ensures { length result.now ≡ 496 }
{
    &b[..496]
}

fn fault_of(bytes: &[u8]) -> Option<ElfFault>
    requires { length bytes.now ≤ 544 }
{
    ObjectView::read(bytes).err()
}

/// The numbers of the sections of the smallest file: type, flags, size, link, info and alignment.
const SECTIONS: [(u32, u64, u64, u32, u32, u64); 5] = [
    (0, 0, 0, 0, 0, 0),
    (1, 6, 12, 0, 0, 4),
    (2, 0, 48, 3, 1, 8),
    (3, 0, 8, 0, 0, 1),
    (3, 0, 33, 0, 0, 1),
];

#[test]
fn the_sections_of_the_smallest_object_are_read(rt: HostRuntime) {
    let b = smallest_with(&[]);
    let view = ObjectView::read(smallest(&b)).expect(&rt, "an object file");
    assert_eq!(rt; view.section_count(), 5);
    for (i, numbers) in SECTIONS.iter().enumerate() {
        let s = view.section(i as u32);
        assert_eq!(rt;
            (s.kind, s.flags, s.size, s.link, s.info, s.align),
            *numbers,
            "section {i}"
        );
        let h = view.section_header(i as u32);
        assert_eq!(rt;
            (h.kind, h.flags, h.size, h.link, h.info, h.align),
            *numbers,
            "the header of section {i}"
        );
        assert_eq!(rt; view.record_count(i as u32), 0, "section {i}");
    }
    assert!(rt; view.section(0).name.is_empty() && view.section(0).bytes.is_empty());
    assert_eq!(rt; view.section(1).name, b".text".as_slice());
    assert_eq!(rt;
        view.section(1).bytes,
        b"\x01\x00\x00\x38\x07\x00\x60\x38\x02\x00\x00\x44".as_slice()
    );
    assert_eq!(rt; view.section(3).name, b".strtab".as_slice());
    assert_eq!(rt; view.section(3).bytes, b"\x00_start\x00".as_slice());
}

#[test]
fn the_symbols_of_the_smallest_object_are_read(rt: HostRuntime) {
    let b = smallest_with(&[]);
    let view = ObjectView::read(smallest(&b)).expect(&rt, "an object file");
    assert_eq!(rt; view.symbol_count(), 2);
    assert!(rt; view.symbol(0).name.is_empty());
    let start = view.symbol(1);
    assert_eq!(rt; start.name, b"_start".as_slice());
    assert_eq!(rt; (start.info, start.other, start.shndx), (0x12, 0, 1));
    assert_eq!(rt; (start.value, start.size), (0, 12));
}

/// Symbol 1 is a common of other numbers.
const COMMON: Part = (
    104,
    b"\x01\x00\x00\x00\x21\x62\xf2\xff\x08\x00\x00\x00\x00\x00\x00\x80\x18\x00\x00\x00\x00\x00\x00\x01",
);

#[test]
fn the_entry_of_a_symbol_is_read_without_its_name(rt: HostRuntime) {
    let b = smallest_with(&[COMMON]);
    let view = ObjectView::read(smallest(&b)).expect(&rt, "an object file");
    assert_eq!(rt; view.symbol_count(), 2);
    let common = SymbolEntry {
        info: 0x21,
        other: 0x62,
        shndx: 0xFFF2,
        value: 0x8000_0000_0000_0008,
        size: 0x0100_0000_0000_0018,
    };
    assert_eq!(rt; view.symbol_entry(1), common);
}

/// A symbol of the smallest file, a name, and whether the symbol has it.
const SYMBOL_NAMES: [(u32, &[u8], bool); 9] = [
    (1, b"_start", true),
    (1, b"_star", false),
    (1, b"_start_", false),
    (1, b"_start\x00", false),
    (1, b"_starT", false),
    (1, b"-start", false),
    (1, b"", false),
    (0, b"", true),
    (0, b"\x00", false),
];

/// The same of a section.
const SECTION_NAMES: [(u32, &[u8], bool); 9] = [
    (1, b".text", true),
    (1, b".tex", false),
    (1, b".text.hot", false),
    (1, b".text\x00.symtab", false),
    (1, b".toxt", false),
    (4, b".shstrtab", true),
    (4, b".shstrtab\x00.", false),
    (0, b"", true),
    (0, b".text", false),
];

#[test]
fn names_are_the_same_where_all_their_bytes_are(rt: HostRuntime) {
    let b = smallest_with(&[]);
    let view = ObjectView::read(smallest(&b)).expect(&rt, "an object file");
    for (j, name, same) in SYMBOL_NAMES.iter() {
        assert!(rt; *j < view.symbol_count());
        assert_eq!(rt;
            view.symbol_is_named(*j, name),
            *same,
            "symbol {j}, {name:?}"
        );
    }
    for (i, name, same) in SECTION_NAMES.iter() {
        assert!(rt; *i < view.section_count());
        assert_eq!(rt;
            view.section_is_named(*i, name),
            *same,
            "section {i}, {name:?}"
        );
    }
}

#[test]
fn the_records_of_a_kept_section_are_read(rt: HostRuntime) {
    let b = smallest_with(&RECORDS);
    let view = ObjectView::read(&b).expect(&rt, "an object file");
    assert_eq!(rt; view.section_count(), 5);
    assert_eq!(rt; view.record_count(1), 2);
    assert_eq!(rt; view.record_count(2), 0);
    let first = Rela {
        offset: 0x8000_0000_0000_0008,
        kind: 0x26,
        symbol: 1,
        addend: -4,
    };
    assert_eq!(rt; view.rela(1, 0), first);
    let second = Rela {
        offset: 0x10,
        kind: 0xFFFF_FFFF,
        symbol: 0,
        addend: i64::MIN,
    };
    assert_eq!(rt; view.rela(1, 1), second);
}

#[test]
fn a_cut_file_lacks_a_table(rt: HostRuntime) {
    let b = smallest_with(&[]);
    for length in 0..496 {
        let fault = if length < 4 {
            ElfFault::NotElf
        } else {
            ElfFault::BadTable(Place::File)
        };
        assert_eq!(rt; fault_of(&b[..length]), Some(fault), "{length} bytes");
    }
    assert_eq!(rt; fault_of(smallest(&b)), None);
}

const FILE: Option<ElfFault> = Some(ElfFault::BadTable(Place::File));

const SECTION_1: Option<ElfFault> = Some(ElfFault::BadTable(Place::Section(1)));

const SECTION_2: Option<ElfFault> = Some(ElfFault::BadTable(Place::Section(2)));

const SECTION_3: Option<ElfFault> = Some(ElfFault::BadTable(Place::Section(3)));

const SECTION_4: Option<ElfFault> = Some(ElfFault::BadTable(Place::Section(4)));

const SYMBOL_0: Option<ElfFault> = Some(ElfFault::BadTable(Place::Symbol(0)));

const SYMBOL_1: Option<ElfFault> = Some(ElfFault::BadTable(Place::Symbol(1)));

const RECORD_0: Option<ElfFault> = Some(ElfFault::BadTable(Place::Record(1, 0)));

const RECORD_1: Option<ElfFault> = Some(ElfFault::BadTable(Place::Record(1, 1)));

/// A number in the smallest file, and the first fault of the file that has it.
const CHANGES: [(Change, Option<ElfFault>); 52] = [
    // identification, type and ABI
    ((0, 1, 0), Some(ElfFault::NotElf)),
    ((3, 1, 0x47), Some(ElfFault::NotElf)),
    ((4, 1, 1), Some(ElfFault::NotPpc64Le)),
    ((5, 1, 2), Some(ElfFault::NotPpc64Le)),
    ((6, 1, 0), Some(ElfFault::NotPpc64Le)),
    ((18, 2, 20), Some(ElfFault::NotPpc64Le)),
    ((18, 2, 0x115), Some(ElfFault::NotPpc64Le)),
    ((20, 4, 2), Some(ElfFault::NotPpc64Le)),
    ((20, 4, 0x0100_0001), Some(ElfFault::NotPpc64Le)),
    ((16, 2, 3), Some(ElfFault::SharedObject)),
    ((16, 2, 2), Some(ElfFault::NotObject)),
    ((16, 2, 0), Some(ElfFault::NotObject)),
    ((16, 2, 0x101), Some(ElfFault::NotObject)),
    ((48, 4, 1), Some(ElfFault::BadAbi)),
    ((48, 4, 3), Some(ElfFault::BadAbi)),
    ((48, 4, 0x8000_0002), Some(ElfFault::BadAbi)),
    ((48, 4, 0), None),
    // the section headers, and the table of their names
    ((58, 2, 56), FILE),
    ((60, 2, 0), FILE),
    ((60, 2, 6), FILE),
    ((40, 8, 177), FILE),
    ((40, 8, 0xFFFF_FFFF_FFFF_FFF0), FILE),
    ((62, 2, 5), FILE),
    ((62, 2, 0), FILE),
    ((62, 2, 1), FILE),
    ((436, 4, 1), FILE),
    // the bytes of the sections
    ((264, 8, 484), None),
    ((264, 8, 485), SECTION_1),
    ((264, 8, 0x8000_0000_0000_0040), SECTION_1),
    ((264, 8, 0xFFFF_FFFF_FFFF_FFF4), SECTION_1),
    ((272, 8, 0x8000_0000_0000_000C), SECTION_1),
    ((456, 8, 464), SECTION_4),
    // the names of the sections
    ((240, 4, 32), None),
    ((240, 4, 33), SECTION_1),
    ((368, 4, 0xFF00_0000), SECTION_3),
    ((464, 8, 32), SECTION_4),
    ((176, 4, 255), None),
    // the symbol table
    ((372, 4, 2), SECTION_3),
    ((244, 4, 2), SECTION_2),
    ((180, 4, 2), None),
    ((360, 8, 16), SECTION_2),
    ((336, 8, 47), SECTION_2),
    ((344, 4, 5), SECTION_2),
    ((344, 4, 0), SECTION_2),
    ((344, 4, 1), SECTION_2),
    ((344, 4, 4), None),
    ((308, 4, 1), None),
    // the names of the symbols
    ((104, 4, 7), None),
    ((104, 4, 8), SYMBOL_1),
    ((80, 4, 8), SYMBOL_0),
    ((135, 1, 0x41), SYMBOL_1),
    // records of no section
    ((244, 4, 4), None),
];

/// A number in the smallest file with records, and the first fault of the file that has it.
const RECORD_CHANGES: [(Change, Option<ElfFault>); 12] = [
    ((284, 4, 5), SECTION_1),
    ((284, 4, 2), None),
    ((284, 4, 0), None),
    ((296, 8, 16), SECTION_1),
    ((272, 8, 47), SECTION_1),
    ((280, 4, 3), SECTION_1),
    ((280, 4, 0), SECTION_1),
    ((308, 4, 1), SECTION_1),
    ((508, 4, 1), None),
    ((508, 4, 2), RECORD_0),
    ((532, 4, 2), RECORD_1),
    ((532, 4, 0x8000_0000), RECORD_1),
];

/// What the header of section 0 says, and a section without bytes.
const PAIRS: [(Change, Change, Option<ElfFault>); 6] = [
    ((62, 2, 0), (180, 4, 3), FILE),
    ((344, 4, 0), (180, 4, 3), SECTION_2),
    ((200, 8, 1000), (180, 4, 1), None),
    ((264, 8, 1000), (244, 4, 0), None),
    ((272, 8, 1000), (244, 4, 8), None),
    ((184, 8, 2), (244, 4, 4), None),
];

#[test]
fn a_number_that_is_not_as_it_should_be_is_found(rt: HostRuntime) {
    for (i, (number, fault)) in CHANGES.iter().enumerate() {
        let mut b = smallest_with(&[]);
        change(&mut b, *number);
        assert_eq!(rt; fault_of(smallest(&b)), *fault, "row {i}");
    }
    for (i, (first, second, fault)) in PAIRS.iter().enumerate() {
        let mut b = smallest_with(&[]);
        change(&mut b, *first);
        change(&mut b, *second);
        assert_eq!(rt; fault_of(smallest(&b)), *fault, "row {i}");
    }
}

#[test]
fn a_record_that_is_not_as_it_should_be_is_found(rt: HostRuntime) {
    for (i, (number, fault)) in RECORD_CHANGES.iter().enumerate() {
        let mut b = smallest_with(&RECORDS);
        change(&mut b, *number);
        assert_eq!(rt; fault_of(&b), *fault, "row {i}");
    }
}
