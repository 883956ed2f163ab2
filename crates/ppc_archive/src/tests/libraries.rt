// Libraries as GNU ar and llvm-ar write them, and files that are none.
use crate::{is_library, members};
use elf64_records::FILE_LIMIT;
use std::test::Fail;

/// `ar qcD` of files called note, even, empty, a_name_of_more_than_sixteen and twice d: GNU ar and llvm-ar write the same bytes. Data
/// of odd size has a byte more behind it, and a long name stands in a table.
pub const WRITTEN: &[u8; 484] = b"!<arch>\n\
//                                              30        `\n\
a_name_of_more_than_sixteen/\n\
\n\
note/           0           0     0     644     5         `\n\
hello\n\
even/           0           0     0     644     2         `\n\
abempty/          0           0     0     644     0         `\n\
/0              0           0     0     644     3         `\n\
xyz\n\
d/              0           0     0     644     7         `\n\
dup one\n\
d/              0           0     0     644     6         `\n\
second";

const MEMBERS: [(&str, &[u8]); 6] = [
    ("note", b"hello"),
    ("even", b"ab"),
    ("empty", b""),
    ("a_name_of_more_than_sixteen", b"xyz"),
    ("d", b"dup one"),
    ("d", b"second"),
];

#[test]
fn the_members_that_ar_writes_are_read(rt: HostRuntime) -> Result<(), Fail> {
    let bytes = WRITTEN.as_slice();
    if bytes.len() > FILE_LIMIT || !is_library(bytes) {
        return Err(Fail::from("no library"));
    }
    let Ok(members) = members(bytes) else {
        return Err(Fail::from("no members"));
    };
    assert_eq!(rt; members.count(), 6);
    for (i, (name, bytes)) in MEMBERS.iter().enumerate() {
        let i = i as u32;
        if i < members.count() {
            assert_eq!(rt; members.name(i), *name);
            assert_eq!(rt; members.bytes(i), *bytes);
        }
    }
    for (i, member) in members.iter().enumerate() {
        if i < 6 {
            assert_eq!(rt; (member.name, member.bytes), MEMBERS[i]);
        }
    }
    Ok(())
}

/// Where the first header begins that isn't one, if the file is a library.
fn fault_of(bytes: &[u8]) -> Option<u64> {
    if bytes.len() > FILE_LIMIT || !is_library(bytes) {
        return None;
    }
    members(bytes).err()
}

/// Other bytes at a place of the library, and where the first header begins that isn't one. The header of note begins at 98, that of
/// the long name at 286, and the last one at 418.
const CHANGED: [(usize, &[u8], Option<u64>); 22] = [
    (98, b"note/", None),
    (98, b"note ", None),
    (98, b"note\t", None),
    (98, b"a b/ ", None),
    (98, b"a/b/ ", None),
    (98, b"/12/ ", None),
    (98, b"a/b  ", Some(98)),
    (98, b"#1/20", Some(98)),
    (98, b"/x   ", Some(98)),
    (98, b"     ", Some(98)),
    (98, b"\xFFote/", Some(98)),
    (146, b"5\t", None),
    (146, b"05", None),
    (146, b" 5", Some(98)),
    (146, b"5 5", Some(98)),
    (146, b"-5", Some(98)),
    (146, b"9999999999", Some(98)),
    (156, b"'", Some(98)),
    (157, b"\r", Some(98)),
    (286, b"/9", None),
    (286, b"/29", Some(286)),
    (286, b"/99999", Some(286)),
];

#[test]
fn headers_are_as_they_should_be(rt: HostRuntime) -> Result<(), Fail> {
    for (row, (at, bytes, fault)) in CHANGED.iter().enumerate() {
        let mut changed = *WRITTEN;
        for (i, byte) in bytes.iter().enumerate() {
            if i < 484 && *at < 484 - i {
                changed[*at + i] = *byte;
            }
        }
        assert_eq!(rt; fault_of(&changed), *fault, "row {row}");
    }
    Ok(())
}

/// How many bytes of the library are left, and where the first header begins that isn't one.
const CUT: [(usize, Option<u64>); 9] = [
    (484, None),
    (483, Some(418)),
    (477, Some(418)),
    (419, Some(418)),
    (418, None),
    (417, None),
    (416, Some(350)),
    (18, Some(8)),
    (8, None),
];

#[test]
fn data_lies_in_the_file(rt: HostRuntime) -> Result<(), Fail> {
    for (length, fault) in CUT {
        assert_eq!(rt;
            fault_of(&WRITTEN[..length.min(484)]),
            fault,
            "of {length} bytes"
        );
    }
    Ok(())
}

/// Thin libraries are none, and neither is what has another byte in front.
#[test]
fn other_files_are_no_libraries(rt: HostRuntime) -> Result<(), Fail> {
    assert!(rt; is_library(b"!<arch>\n"));
    assert!(rt; !is_library(b"!<arch>"));
    assert!(rt; !is_library(b"!<thin>\n"));
    assert!(rt; !is_library(b"\n!<arch>\n"));
    Ok(())
}
