// Each field of the headers of an executable set to 0, to 1, to its greatest value, to the file's length and to the ends of memory, and so
// for two fields that stand beside each other: what is loaded is compared with a second reading of the file, whose sums can't wrap.
use crate::{ExecFault, read_exec};
use std::alloc::Global;
use std::test::Fail;

/// A number, its width in bytes and the place in a file where it stands.
type Change = (usize, usize, u64);

/// How many bytes the file has: a file header, three program headers and 24 bytes of two segments.
const LENGTH: usize = 256;

/// Read-only data without bytes in the file, data with some, and text.
const PARTS: [Change; 23] = [
    (0, 8, 0x0001_0102_464C_457F),
    (16, 2, 2),
    (18, 2, 21),
    (20, 4, 1),
    (24, 8, 0x1003_0004),
    (32, 8, 64),
    (48, 4, 2),
    (54, 2, 56),
    (56, 2, 3),
    (64, 4, 1),
    (72, 8, 200),
    (80, 8, 0x1000_0000),
    (104, 8, 0x20),
    (120, 4, 1),
    (128, 8, 232),
    (136, 8, 0x1001_0000),
    (152, 8, 12),
    (160, 8, 0x1_0010),
    (176, 4, 1),
    (184, 8, 244),
    (192, 8, 0x1003_0000),
    (208, 8, 12),
    (216, 8, 12),
];

/// Sets a field.
fn change(b: &mut [u8; LENGTH], change: Change) {
    let (at, width, value) = change;
    for (i, byte) in value.to_le_bytes().iter().enumerate() {
        if i < width {
            if let Some(place) = b.get_mut(at.saturating_add(i)) {
                *place = *byte;
            }
        }
    }
}

/// The file, whose last 24 bytes are no zeros.
fn small() -> [u8; LENGTH] {
    let mut b = [0; LENGTH];
    for i in 232..LENGTH {
        b[i] = i as u8;
    }
    for part in PARTS {
        change(&mut b, part);
    }
    b
}

/// The number of so many bytes at a place. What lies past the end counts as zero.
fn number(b: &[u8], at: u128, width: usize) -> u128 {
    let mut number = 0u128;
    for k in 0..width {
        let place = at.saturating_add((width - 1 - k) as u128);
        let byte = match usize::try_from(place) {
            Ok(place) => b.get(place).copied().unwrap_or(0),
            Err(_) => 0,
        };
        number = number.wrapping_mul(256).wrapping_add(u128::from(byte));
    }
    number
}

/// A number in a program header.
fn header_number(b: &[u8], i: u32, at: u128, width: usize) -> u128 {
    let place = u128::from(i).saturating_mul(56).saturating_add(at);
    number(b, number(b, 32, 8).saturating_add(place), width)
}

/// How many program headers there are.
fn headers(b: &[u8]) -> u32 {
    u32::try_from(number(b, 56, 2)).unwrap_or(0)
}

/// What is wrong with the file header.
fn check_header(b: &[u8]) -> Option<ExecFault> {
    if b.get(..4) != Some(b"\x7fELF".as_slice()) {
        return Some(ExecFault::NotElf);
    }
    let identified = b.len() >= 64 && b.get(4..7) == Some(b"\x02\x01\x01".as_slice());
    let kind = number(b, 16, 2) == 2 && number(b, 18, 2) == 21 && number(b, 20, 4) == 1;
    let flags = number(b, 48, 4) == 0 || number(b, 48, 4) == 2;
    let size = number(b, 56, 2).saturating_mul(56);
    let end = number(b, 32, 8).saturating_add(size);
    let listed = number(b, 54, 2) == 56 && size != 0 && end <= b.len() as u128;
    if !identified || !kind || !flags || !listed {
        return Some(ExecFault::NotExec);
    }
    None
}

/// A program header is of a segment.
fn is_load(b: &[u8], i: u32) -> bool {
    header_number(b, i, 0, 4) == 1
}

/// Where a segment ends in memory.
fn end_of(b: &[u8], i: u32) -> u128 {
    header_number(b, i, 16, 8).saturating_add(header_number(b, i, 40, 8))
}

/// A segment begins before one of an earlier header ends.
fn is_early(b: &[u8], i: u32) -> bool {
    for earlier in 0..i {
        if is_load(b, earlier) && header_number(b, i, 16, 8) < end_of(b, earlier) {
            return true;
        }
    }
    false
}

/// A segment can be loaded.
fn is_good(b: &[u8], i: u32) -> bool {
    let stored = header_number(b, i, 32, 8);
    let end = header_number(b, i, 8, 8).saturating_add(stored);
    end <= b.len() as u128
        && stored <= header_number(b, i, 40, 8)
        && end_of(b, i) <= 0x7000_0000
        && !is_early(b, i)
}

/// What is wrong with the file.
fn check(b: &[u8]) -> Option<ExecFault> {
    if let Some(fault) = check_header(b) {
        return Some(fault);
    }
    for i in 0..headers(b) {
        if is_load(b, i) && !is_good(b, i) {
            return Some(ExecFault::BadSegment(i));
        }
    }
    None
}

/// A segment: its flags, address, bytes and size.
type Loaded<'a> = (u128, u128, &'a [u8], u128);

/// The segments that are loaded.
fn slow_segments<'a>(alloc: Global, b: &'a [u8]) -> Result<Vec<Loaded<'a>>, Fail> {
    let mut list = Vec::new(alloc);
    for i in 0..headers(b) {
        let from = usize::try_from(header_number(b, i, 8, 8)).unwrap_or(0);
        let stored = usize::try_from(header_number(b, i, 32, 8)).unwrap_or(0);
        if is_load(b, i) && header_number(b, i, 40, 8) > 0 {
            list.push((
                header_number(b, i, 4, 4),
                header_number(b, i, 16, 8),
                b.get(from..from.saturating_add(stored))
                    .ok_or("bytes of a segment")?,
                header_number(b, i, 40, 8),
            ))?;
        }
    }
    Ok(list)
}

/// Both readings of a file are the same.
fn is_read_alike(alloc: Global, b: &[u8]) -> Result<bool, Fail> {
    let slow = check(b);
    let read = match read_exec(alloc, b) {
        Ok(read) => read,
        Err(fault) => return Ok(slow == Some(fault)),
    };
    if slow.is_some() {
        return Ok(false);
    }
    let segments = slow_segments(alloc, b)?;
    for (one, other) in read.list.iter().zip(segments.iter()) {
        let bytes = one.bytes.as_slice();
        let size = u128::from(one.size);
        if (u128::from(one.flags), u128::from(one.address), bytes, size) != *other {
            return Ok(false);
        }
    }
    Ok(read.list.len() == segments.len() && u128::from(read.entry) == number(b, 24, 8))
}

/// The fields of the file header by their places and widths.
const HEADER: [(usize, usize); 17] = [
    (0, 4),
    (4, 1),
    (5, 1),
    (6, 1),
    (16, 2),
    (18, 2),
    (20, 4),
    (24, 8),
    (32, 8),
    (40, 8),
    (48, 4),
    (52, 2),
    (54, 2),
    (56, 2),
    (58, 2),
    (60, 2),
    (62, 2),
];

/// Those of a program header.
const SEGMENT: [(usize, usize); 8] = [
    (0, 4),
    (4, 4),
    (8, 8),
    (16, 8),
    (24, 8),
    (32, 8),
    (40, 8),
    (48, 8),
];

/// Where a header begins, and its fields.
const HEADERS: [(usize, &[(usize, usize)]); 4] = [
    (0, &HEADER),
    (64, &SEGMENT),
    (120, &SEGMENT),
    (176, &SEGMENT),
];

/// What a field is set to: the greatest value is cut to the field's width. The last two are the address at which twelve bytes just fit in
/// a program's memory, and the next one.
const VALUES: [u64; 6] = [0, 1, u64::MAX, LENGTH as u64, 0x6FFF_FFF4, 0x6FFF_FFF5];

/// Each field with each value.
fn all_changes(alloc: Global) -> Result<Vec<Change>, Fail> {
    let mut changes = Vec::new(alloc);
    for (start, fields) in HEADERS {
        for (at, width) in fields {
            for value in VALUES {
                changes.push((start.saturating_add(*at), *width, value))?;
            }
        }
    }
    Ok(changes)
}

#[test]
fn each_field_is_read_as_a_second_reader_does(rt: HostRuntime) -> Result<(), Fail> {
    assert_eq!(rt; check(&small()), None);
    let changes = all_changes(rt.alloc())?;
    assert_eq!(rt; changes.len(), 246);
    for (row, first) in changes.iter().enumerate() {
        let mut b = small();
        change(&mut b, *first);
        assert!(rt; is_read_alike(rt.alloc(), &b)?, "row {row}");
    }
    Ok(())
}

/// How many changes stand near one: those of eight fields.
const NEAR: usize = 48;

#[test]
fn two_fields_are_read_as_a_second_reader_does(rt: HostRuntime) -> Result<(), Fail> {
    let changes = all_changes(rt.alloc())?;
    for (row, first) in changes.iter().enumerate() {
        let mut changed = small();
        change(&mut changed, *first);
        for second in changes.iter().skip(row).take(NEAR) {
            let mut b = changed;
            change(&mut b, *second);
            assert!(rt; is_read_alike(rt.alloc(), &b)?, "row {row}");
        }
    }
    Ok(())
}

#[test]
fn an_executable_that_is_cut_off_is_read_as_a_second_reader_does(
    rt: HostRuntime,
) -> Result<(), Fail> {
    let b = small();
    for length in 0..257 {
        assert!(rt;
            is_read_alike(rt.alloc(), &b[..length])?,
            "of {length} bytes"
        );
    }
    Ok(())
}
