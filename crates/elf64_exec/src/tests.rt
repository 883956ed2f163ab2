ghost use Rattle.std.specs.Prelude.{◌≡◌, ◌+◌, ◌<◌, ◌≤◌, ◌∷◌, [], length, IfOk};
ghost use Rattle.elf64_exec.specs.Executable.{IsImage, IsSound};

mod views;

use crate::{ExecFault, Segment, Segments, read_exec, write_exec};
use ppc_bytes::{Bytes, Memory, put_half, put_long, put_word};
use std::alloc::Global;
use std::test::Fail;

const TEXT: [u8; 12] = [0x01, 0, 0, 0x38, 0x07, 0, 0x60, 0x38, 0x02, 0, 0, 0x44];

/// The file header and the program header of an executable whose one segment is `TEXT`.
const HEADERS: [u8; 120] = [
    0x7F, 0x45, 0x4C, 0x46, 0x02, 0x01, 0x01, 0x00, 0x00, 0x00, 0x00, 0x00, 0x00, 0x00, 0x00, 0x00,
    0x02, 0x00, 0x15, 0x00, 0x01, 0x00, 0x00, 0x00, 0x00, 0x00, 0x00, 0x10, 0x00, 0x00, 0x00, 0x00,
    0x40, 0x00, 0x00, 0x00, 0x00, 0x00, 0x00, 0x00, 0x00, 0x00, 0x00, 0x00, 0x00, 0x00, 0x00, 0x00,
    0x02, 0x00, 0x00, 0x00, 0x40, 0x00, 0x38, 0x00, 0x01, 0x00, 0x00, 0x00, 0x00, 0x00, 0x00, 0x00,
    0x01, 0x00, 0x00, 0x00, 0x05, 0x00, 0x00, 0x00, 0x00, 0x00, 0x01, 0x00, 0x00, 0x00, 0x00, 0x00,
    0x00, 0x00, 0x00, 0x10, 0x00, 0x00, 0x00, 0x00, 0x00, 0x00, 0x00, 0x10, 0x00, 0x00, 0x00, 0x00,
    0x0C, 0x00, 0x00, 0x00, 0x00, 0x00, 0x00, 0x00, 0x0C, 0x00, 0x00, 0x00, 0x00, 0x00, 0x00, 0x00,
    0x00, 0x00, 0x01, 0x00, 0x00, 0x00, 0x00, 0x00,
];

fn segment(
    alloc: Global,
    flags: u32,
    address: u64,
    bytes: &[u8],
    size: u64,
) -> Result<Segment, Memory>
    ensures { IfOk result (λ s. s ≡ record {
      flags = flags;
      address = address;
      bytes = bytes.now;
      size = size;
    }) }
{
    let bytes = Bytes::of(Vec::from_slice(alloc, bytes)?);
    Ok(Segment {
        flags,
        address,
        bytes,
        size,
    })
}

fn text_alone(alloc: Global) -> Result<Segments, Memory>
    ensures { IfOk result (λ s. IsImage s.list.items) }
{
    let mut list = Vec::new(alloc);
    list.push(segment(alloc, 5, 0x1000_0000, &TEXT, 12)?)?;
    Ok(Segments {
        entry: 0x1000_0000,
        list,
    })
}

/// Read-only data without bytes in the file, data with some, and text.
fn three_segments(alloc: Global) -> Result<Segments, Memory>
    ensures { IfOk result (λ s. IsImage s.list.items) }
{
    let mut list = Vec::new(alloc);
    list.push(segment(alloc, 4, 0x1000_0000, &[], 0x20)?)?;
    list.push(segment(alloc, 6, 0x1001_0000, &[1, 2, 3], 0x1_0010)?)?;
    list.push(segment(alloc, 5, 0x1003_0000, &TEXT, 12)?)?;
    Ok(Segments {
        entry: 0x1003_0004,
        list,
    })
}

#[test]
fn the_smallest_executable_has_these_bytes(rt: HostRuntime) -> Result<(), Fail> {
    let file = write_exec(rt.alloc(), &text_alone(rt.alloc())?)?;
    let bytes = file.as_slice();
    assert!(rt; bytes.len() == 65_548);
    let (headers, rest) = bytes.split_at(120);
    let (zeros, text) = rest.split_at(65_416);
    assert_eq!(rt; headers, HEADERS.as_slice());
    assert!(rt; zeros.iter().all(|b| *b == 0));
    assert_eq!(rt; text, TEXT.as_slice());
    Ok(())
}

#[test]
fn three_segments_are_read_back(rt: HostRuntime) -> Result<(), Fail> {
    let segments = three_segments(rt.alloc())?;
    let file = write_exec(rt.alloc(), &segments)?;
    assert_eq!(rt; file.len(), 0x2_000C);
    let again = read_exec(rt.alloc(), &file)?;
    assert_eq!(rt; again.entry, 0x1003_0004);
    assert_eq!(rt; again.list.len(), 3);
    for (old, new) in segments.list.iter().zip(again.list.iter()) {
        assert_eq!(rt; new.flags, old.flags);
        assert_eq!(rt; new.address, old.address);
        assert_eq!(rt; new.bytes.as_slice(), old.bytes.as_slice());
        assert_eq!(rt; new.size, old.size);
    }
    Ok(())
}

fn fault_of(alloc: Global, file: &[u8]) -> Option<ExecFault> {
    read_exec(alloc, file).err()
}

#[test]
fn a_wrong_file_header_is_refused(rt: HostRuntime) -> Result<(), Fail> {
    let good = write_exec(rt.alloc(), &three_segments(rt.alloc())?)?;
    for (length, fault) in [
        (3, ExecFault::NotElf),
        (63, ExecFault::NotExec),
        (231, ExecFault::NotExec),
    ] {
        let bytes = good.as_slice();
        assert!(rt; length <= bytes.len());
        assert_eq!(rt;
            fault_of(rt.alloc(), &bytes[..length]),
            Some(fault),
            "of {length}"
        );
    }
    let changes = [
        (1, 0x46, ExecFault::NotElf),
        (4, 1, ExecFault::NotExec),
        (5, 2, ExecFault::NotExec),
        (16, 3, ExecFault::NotExec),
        (18, 20, ExecFault::NotExec),
        (39, 0xFF, ExecFault::NotExec),
        (48, 1, ExecFault::NotExec),
        (54, 57, ExecFault::NotExec),
        (56, 0, ExecFault::NotExec),
    ];
    for (at, byte, fault) in changes {
        let mut file = Vec::from_slice(rt.alloc(), &good)?;
        assert!(rt; at < file.len());
        file[at] = byte;
        assert_eq!(rt; fault_of(rt.alloc(), &file), Some(fault), "at {at}");
    }
    Ok(())
}

#[test]
fn a_wrong_segment_is_refused_by_its_number(rt: HostRuntime) -> Result<(), Fail> {
    let good = write_exec(rt.alloc(), &three_segments(rt.alloc())?)?;
    let changes = [
        // p_offset of the first, so that the sum is near 2^64; of the second, one byte past the file
        (64 + 8, u64::MAX, 0),
        (120 + 8, 0x2_000A, 1),
        // p_filesz of the third, past p_memsz
        (176 + 32, 13, 2),
        // p_memsz of the third, one past the end of a program's memory
        (176 + 40, 0x6000_0000 - 0x3_0000 + 1, 2),
        // p_vaddr of the third, below the end of the first and of the second
        (176 + 16, 0x1002_000F, 2),
        // p_memsz of the first, past the start of the second
        (64 + 40, 0x1_0001, 1),
    ];
    for (at, number, segment) in changes {
        let mut file = Vec::from_slice(rt.alloc(), &good)?;
        assert!(rt; at + 8 <= file.len());
        put_long(&mut file, at, number);
        assert_eq!(rt;
            fault_of(rt.alloc(), &file),
            Some(ExecFault::BadSegment(segment)),
            "at {at}"
        );
    }
    Ok(())
}

#[test]
fn other_headers_and_empty_segments_are_skipped(rt: HostRuntime) -> Result<(), Fail> {
    let mut file = write_exec(rt.alloc(), &three_segments(rt.alloc())?)?;
    assert!(rt; file.len() >= 232);
    put_word(&mut file, 48, 0);
    put_word(&mut file, 64, 4);
    put_long(&mut file, 64 + 8, u64::MAX);
    put_long(&mut file, 120 + 32, 0);
    put_long(&mut file, 120 + 40, 0);
    let segments = read_exec(rt.alloc(), &file)?;
    assert_eq!(rt; segments.list.len(), 1);
    assert_eq!(rt; segments.list[0].address, 0x1003_0000);

    // an empty one is checked all the same, and its end counts
    put_long(&mut file, 120 + 16, 0x1003_0001);
    assert_eq!(rt; fault_of(rt.alloc(), &file), Some(ExecFault::BadSegment(2)));
    put_half(&mut file, 56, 1);
    assert_eq!(rt; fault_of(rt.alloc(), &file), None);
    Ok(())
}
