// The store and the console in memory and those of the system, each used once; readers and writers that take little at a time.
use crate::transfer::{read_front, write_whole};
use crate::{Console, DirStore, MemConsole, MemStore, OutsideError, StdConsole, Store};
use std::alloc::{AllocError, Global};
use std::io::{ErrorKind, Read, Write};
use std::os::unix::fs::{MetadataExt, symlink};
use std::test::Fail;
use std::{fs, io};

#[test]
fn a_store_in_memory_fails_where_it_is_marked(rt: HostRuntime) -> Result<(), Fail> {
    let mut store = MemStore::new(rt.alloc());
    store.add("a.o", b"first")?;
    store.add("a.o", b"second")?;
    store.fail_call(1)?;
    store.fail_call(3)?;
    let mut into = b"<".to_vec(rt.alloc())?;
    assert_eq!(rt; store.fetch("a.o", 3, &mut into), Ok(()));
    assert_eq!(rt; store.fetch("a.o", 9, &mut into), Err(OutsideError::Failed));
    assert_eq!(rt; store.fetch("b.o", 9, &mut into), Err(OutsideError::Failed));
    assert_eq!(rt; into.as_slice(), b"<sec".as_slice());
    assert_eq!(rt; store.replace("b.o", b"new"), Err(OutsideError::Failed));
    assert!(rt; store.get("b.o").is_none());
    assert_eq!(rt; store.replace("b.o", b"new"), Ok(()));
    assert_eq!(rt; store.fetch("b.o", 9, &mut into), Ok(()));
    assert_eq!(rt; into.as_slice(), b"<secnew".as_slice());
    Ok(())
}

#[test]
fn a_console_in_memory_fails_where_it_is_marked(rt: HostRuntime) -> Result<(), Fail> {
    let mut console = MemConsole::new(rt.alloc());
    console.fail_call(1)?;
    assert_eq!(rt; console.put(b"one"), Ok(()));
    assert_eq!(rt; console.put(b"two"), Err(OutsideError::Failed));
    assert_eq!(rt; console.put(b"three"), Ok(()));
    assert_eq!(rt; console.text(), b"onethree".as_slice());
    Ok(())
}

#[test]
fn real_files_are_replaced_whole_and_executable(rt: HostRuntime) -> Result<(), Fail> {
    let mut store = DirStore::new(rt);
    let mut into = Vec::new(rt.alloc());
    assert_eq!(rt; store.replace("dir_store.out", b"the old bytes"), Ok(()));
    assert_eq!(rt; store.replace("dir_store.out", b"new"), Ok(()));
    assert_eq!(rt; store.fetch("dir_store.out", 9, &mut into), Ok(()));
    assert_eq!(rt; store.fetch("dir_store.out", 2, &mut into), Ok(()));
    assert_eq!(rt; into.as_slice(), b"newne".as_slice());
    let mode = fs::metadata(&rt, "dir_store.out")?.mode();
    assert_eq!(rt; mode & 0o100, 0o100);
    assert!(rt; fs::metadata(&rt, "dir_store.out.ppclink0").is_err());
    fs::remove_file(&rt, "dir_store.out")?;
    assert_eq!(rt;
        store.fetch("dir_store.out", 9, &mut into),
        Err(OutsideError::Failed)
    );
    assert_eq!(rt;
        store.replace("no_such_folder/x", b"new"),
        Err(OutsideError::Failed)
    );
    assert_eq!(rt; into.as_slice(), b"newne".as_slice());
    Ok(())
}

#[test]
fn links_are_followed_and_folders_are_never_replaced(rt: HostRuntime) -> Result<(), Fail> {
    let mut store = DirStore::new(rt);
    assert_eq!(rt; store.replace("linked.out", b"old"), Ok(()));
    symlink(&rt, "linked.out", "link.out")?;
    assert_eq!(rt; store.replace("link.out", b"new"), Ok(()));
    let mut into = Vec::new(rt.alloc());
    assert_eq!(rt; store.fetch("linked.out", 9, &mut into), Ok(()));
    assert_eq!(rt; into.as_slice(), b"new".as_slice());
    assert!(rt; fs::symlink_metadata(&rt, "link.out")?.is_symlink());
    fs::remove_file(&rt, "link.out")?;
    fs::remove_file(&rt, "linked.out")?;
    fs::create_dir(&rt, "folder.out")?;
    assert_eq!(rt;
        store.replace("folder.out", b"new"),
        Err(OutsideError::Failed)
    );
    assert!(rt; fs::metadata(&rt, "folder.out")?.is_dir());
    fs::remove_dir(&rt, "folder.out")?;
    Ok(())
}

#[test]
fn standard_output_takes_bytes(rt: HostRuntime) {
    let mut console = StdConsole::new(rt);
    assert_eq!(rt; console.put(b"printed\n"), Ok(()));
    assert_eq!(rt; console.put(b""), Ok(()));
}

// So many bytes, of which no two that stand within 250 of each other are the same.
fn pattern(alloc: Global, count: u32) -> Result<Vec<u8>, AllocError> {
    let mut bytes = Vec::new(alloc);
    for i in 0..count {
        bytes.push((i % 251) as u8)?;
    }
    Ok(bytes)
}

/// A reader that gives at most `most` bytes at a time, and after the last of them ends or fails.
#[derive(Drop)]
struct Trickle<'a> {
    rest: &'a [u8],
    most: usize,
    fails: bool,
}

impl Read for Trickle<'_> {
    fn read(&mut self, buf: &mut [u8]) -> io::Result<usize> {
        if self.rest.is_empty() && self.fails {
            return Err(io::Error::from(ErrorKind::Other));
        }
        let count = self.most.min(buf.len()).min(self.rest.len());
        buf[..count].copy_from_slice(&self.rest[..count]);
        self.rest = &self.rest[count..];
        Ok(count)
    }
}

#[test]
fn a_reader_is_read_to_its_end_or_to_the_limit(rt: HostRuntime) -> Result<(), Fail> {
    let bytes = pattern(rt.alloc(), 0x9001)?;
    // at most so many bytes a read, the limit, whether the reader fails at its end, how many bytes come, and in how many turns, if they do
    let rows: [(usize, usize, bool, usize, Option<usize>); 7] = [
        (1, 0x9001, true, 0x9001, Some(0x9001)),
        (7, 0x1_0000, false, 0x9001, Some(5268)),
        (0x5000, 0x5003, true, 0x5003, Some(3)),
        (0x1_0000, 0x9002, false, 0x9001, Some(4)),
        (0x1_0000, 0, true, 0, Some(0)),
        (7, 0x9002, true, 0, None),
        (0x1_0000, 0x9002, true, 0, None),
    ];
    for (most, limit, fails, wanted, turns) in rows {
        let mut reader = Trickle {
            rest: &bytes,
            most,
            fails,
        };
        let mut into = b"<".to_vec(rt.alloc())?;
        let read = read_front(&mut reader, limit, &mut into);
        assert_eq!(rt; read.ok(), turns);
        assert_eq!(rt; into.get(1..), bytes.get(..wanted));
    }
    Ok(())
}

/// A writer that takes at most `most` bytes at a time, and `room` in all.
#[derive(Drop)]
struct Narrow {
    taken: Vec<u8>,
    most: usize,
    room: usize,
}

impl Write for Narrow {
    fn write(&mut self, buf: &[u8]) -> io::Result<usize> {
        let count = self.most.min(self.room).min(buf.len());
        if self.taken.extend_from_slice(&buf[..count]).is_err() {
            return Err(io::Error::from(ErrorKind::OutOfMemory));
        }
        self.room -= count;
        Ok(count)
    }

    fn flush(&mut self) -> io::Result<()> {
        Ok(())
    }
}

#[test]
fn all_bytes_are_written_or_the_writer_took_none(rt: HostRuntime) -> Result<(), Fail> {
    let bytes = pattern(rt.alloc(), 300)?;
    // at most so many bytes a write, the room, and how many bytes are taken
    let rows: [(usize, usize, usize); 5] = [
        (7, 1000, 300),
        (1, 300, 300),
        (1000, 300, 300),
        (7, 299, 299),
        (0, 1000, 0),
    ];
    for (most, room, taken) in rows {
        let mut writer = Narrow {
            taken: Vec::new(rt.alloc()),
            most,
            room,
        };
        assert_eq!(rt; write_whole(&mut writer, &bytes), taken == 300);
        assert_eq!(rt; Some(writer.taken.as_slice()), bytes.get(..taken));
    }
    Ok(())
}

#[test]
fn a_long_file_is_read_up_to_the_limit(rt: HostRuntime) -> Result<(), Fail> {
    let bytes = pattern(rt.alloc(), 0x9001)?;
    let mut store = DirStore::new(rt);
    assert_eq!(rt; store.replace("long.out", &bytes), Ok(()));
    for limit in [0x5003, 0x9001, 0x9002] {
        let mut into = Vec::new(rt.alloc());
        assert_eq!(rt; store.fetch("long.out", limit, &mut into), Ok(()));
        assert_eq!(rt; Some(into.as_slice()), bytes.get(..limit.min(0x9001)));
    }
    fs::remove_file(&rt, "long.out")?;
    Ok(())
}
