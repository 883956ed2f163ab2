// Each field of each header of a library set to 0, to 1, to its greatest value, to the file's length and to what no number is, and so for
// two fields that stand beside each other: the members are compared with a second reading of the file, which goes byte by byte.
ghost use Rattle.std.specs.Prelude.{◌≡◌};

use super::libraries::WRITTEN;
use crate::{is_library, members};
use elf64_records::FILE_LIMIT;
use std::alloc::Global;
use std::test::Fail;

/// A member: its name and its bytes.
type Found<'a> = (&'a str, &'a [u8]);

/// Bytes without the blanks at their end.
fn without_blanks(text: &[u8]) -> &[u8] {
    let mut end = 0;
    for (i, byte) in text.iter().enumerate() {
        if *byte != b' ' && *byte != b'\t' {
            end = i.saturating_add(1);
        }
    }
    text.get(..end).unwrap_or(&[])
}

/// The number that digits write, if they do.
fn number(digits: &[u8]) -> Option<u128> {
    let mut number = 0u128;
    for byte in digits {
        if !byte.is_ascii_digit() {
            return None;
        }
        let digit = u128::from(byte.wrapping_sub(b'0'));
        number = number.wrapping_mul(10).wrapping_add(digit);
    }
    if digits.is_empty() {
        None
    } else {
        Some(number)
    }
}

/// So many bytes at a place, if the file has them.
fn part(b: &[u8], from: u128, size: u128) -> Option<&[u8]> {
    let from = usize::try_from(from).ok()?;
    let size = usize::try_from(size).ok()?;
    b.get(from..from.checked_add(size)?)
}

/// The name at a place of the table of long names.
fn long_name(table: &[u8], start: u128) -> Option<&[u8]> {
    let rest = table.get(usize::try_from(start).ok()?..)?;
    for i in 0..rest.len() {
        if rest.get(i..i.checked_add(2)?) == Some(b"/\n".as_slice()) {
            return rest.get(..i);
        }
    }
    None
}

/// The name that stands in a header itself.
fn short_name(name: &[u8]) -> Option<&[u8]> {
    if name.last() == Some(&b'/') {
        return name.get(..name.len().saturating_sub(1));
    }
    if name.contains(&b'/') {
        return None;
    }
    Some(name)
}

/// The name of a member.
fn member_name<'a>(name: &'a [u8], table: Option<&'a [u8]>) -> Option<&'a str> {
    let digits = match name.first() {
        Some(b'/') => name.get(1..).and_then(|digits| number(digits)),
        _ => None,
    };
    let name = match digits {
        Some(start) => long_name(table?, start)?,
        None => short_name(name)?,
    };
    if name.is_empty() {
        return None;
    }
    str::from_utf8(name).ok()
}

/// What the header at a place tells: its name as it is written, and the bytes behind it.
fn header(b: &[u8], at: u128) -> Option<(&[u8], &[u8])> {
    if part(b, at.checked_add(58)?, 2)? != b"`\n".as_slice() {
        return None;
    }
    let size = number(without_blanks(part(b, at.checked_add(48)?, 10)?))?;
    let bytes = part(b, at.checked_add(60)?, size)?;
    Some((without_blanks(part(b, at, 16)?), bytes))
}

/// Whether a name is that of an index.
fn is_index(name: &[u8]) -> bool {
    name == b"/".as_slice() || name == b"/SYM64/".as_slice()
}

/// The members, or where the first header begins that isn't one.
fn slow_members<'a>(alloc: Global, b: &'a [u8]) -> Result<Result<Vec<Found<'a>>, u128>, Fail> {
    let mut found = Vec::new(alloc);
    let mut table = None;
    let mut at = 8u128;
    for _ in 0..b.len() {
        if at >= b.len() as u128 {
            break;
        }
        let Some((name, bytes)) = header(b, at) else {
            return Ok(Err(at));
        };
        if name == b"//".as_slice() {
            table = table.or(Some(bytes));
        } else if !is_index(name) {
            let Some(name) = member_name(name, table) else {
                return Ok(Err(at));
            };
            found.push((name, bytes))?;
        }
        let size = bytes.len() as u128;
        at = at
            .saturating_add(60)
            .saturating_add(size)
            .saturating_add(size % 2);
    }
    Ok(Ok(found))
}

/// Both readings of a file are the same.
fn is_read_alike(alloc: Global, b: &[u8]) -> Result<bool, Fail> {
    if b.len() > FILE_LIMIT || !is_library(b) {
        return Ok(b.get(..8) != Some(b"!<arch>\n".as_slice()));
    }
    let slow = slow_members(alloc, b)?;
    match (members(b), slow) {
        (Ok(members), Ok(slow)) => {
            let mut rest = slow.iter();
            for member in members.iter() {
                if rest.next() != Some(&(member.name, member.bytes)) {
                    return Ok(false);
                }
            }
            Ok(rest.next().is_none() && members.count() as usize == slow.len())
        }
        (Err(at), Err(slow)) => Ok(u128::from(at) == slow),
        _ => Ok(false),
    }
}

/// Where the headers of the library begin.
const HEADERS: [usize; 7] = [8, 98, 164, 226, 286, 350, 418];

/// The fields of a header by their places and widths: name, date, owner, group, mode, size, and end.
const FIELDS: [(usize, usize); 7] = [
    (0, 16),
    (16, 12),
    (28, 6),
    (34, 6),
    (40, 8),
    (48, 10),
    (58, 2),
];

/// What a field is set to, with blanks behind it.
const VALUES: [&[u8]; 12] = [
    b"0",
    b"1",
    b"9999999999999999",
    b"484",
    b"",
    b"/",
    b"//",
    b"/0",
    b"/SYM64/",
    b"0/",
    b"\t",
    b"\xFF\xFF\xFF\xFF\xFF\xFF\xFF\xFF\xFF\xFF\xFF\xFF\xFF\xFF\xFF\xFF",
];

/// A place, a width and a value.
type Change = (usize, usize, &'static [u8]);

/// Each field with each value.
fn all_changes(alloc: Global) -> Result<Vec<Change>, Fail> {
    let mut changes = Vec::new(alloc);
    for start in HEADERS {
        for (at, width) in FIELDS {
            for value in VALUES {
                changes.push((start.saturating_add(at), width, value))?;
            }
        }
    }
    Ok(changes)
}

/// Sets a field.
fn change(b: &mut [u8], change: Change) {
    let (at, width, value) = change;
    for i in 0..width {
        let byte = value.get(i).copied().unwrap_or(b' ');
        if let Some(place) = b.get_mut(at.saturating_add(i)) {
            *place = byte;
        }
    }
}

#[test]
fn each_field_is_read_as_a_second_reader_does(rt: HostRuntime) -> Result<(), Fail> {
    let changes = all_changes(rt.alloc())?;
    assert_eq!(rt; changes.len(), 588);
    for (row, first) in changes.iter().enumerate() {
        let mut b = *WRITTEN;
        change(&mut b, *first);
        assert!(rt; is_read_alike(rt.alloc(), &b)?, "row {row}");
    }
    Ok(())
}

/// How many changes stand near one: those of a field and of the next.
const NEAR: usize = 24;

#[test]
fn two_fields_are_read_as_a_second_reader_does(rt: HostRuntime) -> Result<(), Fail> {
    let changes = all_changes(rt.alloc())?;
    for (row, first) in changes.iter().enumerate() {
        let mut changed = *WRITTEN;
        change(&mut changed, *first);
        for second in changes.iter().skip(row).take(NEAR) {
            let mut b = changed;
            change(&mut b, *second);
            assert!(rt; is_read_alike(rt.alloc(), &b)?, "row {row}");
        }
    }
    Ok(())
}

#[test]
fn a_library_that_is_cut_off_is_read_as_a_second_reader_does(rt: HostRuntime) -> Result<(), Fail> {
    for length in 0..485 {
        let front = WRITTEN.get(..length).ok_or("too short")?;
        assert!(rt; is_read_alike(rt.alloc(), front)?, "of {length} bytes");
    }
    Ok(())
}
