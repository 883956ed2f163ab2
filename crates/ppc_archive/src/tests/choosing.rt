// Members that objects take of libraries. A symbol of an object is written as its name: defined so, weak with `~`, a number with `=`, a
// common with `:`, and not defined, so that it is asked for, with `?`.
ghost use Rattle.std.specs.Prelude.{◌≤◌, vec_len, IfOk};

use crate::{ChooseFault, choose};
use elf64_records::constants::{SHN_ABS, SHN_COMMON, STB_GLOBAL, STB_WEAK};
use object_builder::{Object, Section, Symbol};
use object_set::{FileBytes, Refusal};
use std::alloc::{AllocError, Global};
use std::test::Fail;

/// Eight bytes of text.
const TEXT: Section<'static> = Section {
    bytes: &[0; 8],
    ..Section::TEXT
};

/// A symbol that is written so.
fn symbol_of(word: &str) -> Symbol<'_> {
    let weak = word.contains('~');
    let name = word.trim_end_matches(['~', '=', ':', '?']);
    let (section, value) = match word.as_bytes().last() {
        Some(b'?') => (0, 0),
        Some(b'=') => (SHN_ABS, 7),
        Some(b':') => (SHN_COMMON, 8),
        _ => (1, 0),
    };
    let binding = if weak { STB_WEAK } else { STB_GLOBAL };
    Symbol {
        name: name.as_bytes(),
        info: binding << 4,
        section,
        value,
        ..Symbol::START
    }
}

/// An object with these symbols; or, where there is a `!`, no ELF file.
fn object_of(alloc: Global, words: &str) -> Result<Vec<u8>, Fail> {
    if words == "!" {
        return Ok(Vec::from_slice(alloc, b"note")?);
    }
    let mut symbols = Vec::new(alloc);
    for word in words.split_whitespace() {
        symbols.push(symbol_of(word))?;
    }
    let sections = [TEXT];
    let object = Object::of_parts(&sections, symbols.as_slice());
    Ok(object.file(alloc)?)
}

/// Puts a member behind a library.
fn put_member(alloc: Global, library: &mut Vec<u8>, name: &str, bytes: &[u8]) -> Result<(), Fail> {
    if library.len() % 2 == 1 {
        library.push(b'\n')?;
    }
    let size = bytes.len().to_string(alloc)?;
    let mut header = [b' '; 60];
    for (i, byte) in name.as_bytes().iter().enumerate() {
        if i < 16 {
            header[i] = *byte;
        }
    }
    for (i, byte) in size.as_bytes().iter().enumerate() {
        if i < 10 {
            header[48 + i] = *byte;
        }
    }
    header[58] = b'`';
    header[59] = b'\n';
    library.extend_from_slice(&header)?;
    library.extend_from_slice(bytes)?;
    Ok(())
}

/// Files by name and content: an object `a.o`, a library `l.a` without members, or a member of it as `l.a(x.o)`. What stands behind
/// another member of its library is put into that.
fn files_of(alloc: Global, rows: &[(&str, &str)]) -> Result<Vec<FileBytes>, Fail> {
    let mut files: Vec<FileBytes> = Vec::new(alloc);
    let mut last = "";
    for (name, words) in rows {
        let (library, member) = match name.split_once('(') {
            Some((library, member)) => (library, member.trim_end_matches(')')),
            None => (*name, ""),
        };
        let is_library = library.ends_with(".a");
        if !is_library || member.is_empty() || library != last {
            let bytes = if is_library {
                Vec::from_slice(alloc, b"!<arch>\n")?
            } else {
                object_of(alloc, words)?
            };
            files.push(FileBytes {
                name: String::from_str(alloc, library)?,
                bytes,
            })?;
        }
        last = library;
        if let Some(file) = files.last_mut() {
            if !member.is_empty() {
                let bytes = object_of(alloc, words)?;
                put_member(alloc, &mut file.bytes, member, &bytes)?;
            }
        }
    }
    Ok(files)
}

/// The files, where they are at most 4096.
fn few(files: Vec<FileBytes>) -> Result<Vec<FileBytes>, Fail>
    ensures { IfOk result (λ files. vec_len files ≤ 4096) }
{
    if files.len() > 4096 {
        return Err(Fail::from("few files"));
    }
    Ok(files)
}

/// The names of files, each with a blank behind it.
fn names_of(alloc: Global, files: &[FileBytes]) -> Result<String, AllocError> {
    let mut names = String::new(alloc);
    for file in files {
        names.push_str(file.name.as_str())?;
        names.push_str(" ")?;
    }
    Ok(names)
}

/// What files come to with the entry `_start`: the names of the job's files, or what is said of a refusal.
fn outcome(alloc: Global, files: Vec<FileBytes>) -> Result<String, Fail>
    requires { vec_len files ≤ 4096 }
{
    let text = match choose(alloc, files, b"_start") {
        Ok(job) => names_of(alloc, &job)?,
        Err(ChooseFault::Refused { name, refusal }) => {
            let mut text = match str::from_utf8(name.as_slice()) {
                Ok(name) => String::from_str(alloc, name)?,
                Err(_) => String::new(alloc),
            };
            text.push_str(match refusal {
                Refusal::NoEntry(_) => "no entry",
                Refusal::TooManyFiles => "too many",
                Refusal::BadArchive(_, 8) => ": bad archive",
                Refusal::BadTable(_, _) => ": bad table",
                Refusal::BadSymbol(_, _) => ": bad symbol",
                Refusal::NotElf(_) => ": no ELF file",
                _ => ": another refusal",
            })?;
            text
        }
        Err(ChooseFault::Memory) => String::from_str(alloc, "memory")?,
    };
    Ok(text)
}

/// Files, and the job that they come to.
const JOBS: [(&[(&str, &str)], &str); 21] = [
    // a cycle in a library, a member that nobody asks for, one that is no ELF file, and a WEAK name, which doesn't ask
    (
        &[
            ("a.o", "_start f? h~?"),
            ("l.a(x.o)", "f g?"),
            ("l.a(y.o)", "g f?"),
            ("l.a(z.o)", "h"),
            ("l.a(note)", "!"),
        ],
        "a.o l.a(x.o) l.a(y.o) ",
    ),
    // members stand in the order of the library, not of the choice
    (
        &[
            ("a.o", "_start g?"),
            ("l.a(x.o)", "f"),
            ("l.a(y.o)", "g f?"),
        ],
        "a.o l.a(x.o) l.a(y.o) ",
    ),
    // the first member that defines a name is taken, of the first library
    (
        &[
            ("a.o", "_start f?"),
            ("l.a(x.o)", "g"),
            ("l.a(y.o)", "f"),
            ("l.a(z.o)", "f"),
            ("m.a(x.o)", "f"),
        ],
        "a.o l.a(y.o) ",
    ),
    // a library may stand before the object that asks
    (&[("l.a(x.o)", "f"), ("a.o", "_start f?")], "l.a(x.o) a.o "),
    // a name that an object defines isn't open, wherever the object stands
    (
        &[("a.o", "_start f?"), ("l.a(x.o)", "f"), ("b.o", "f~")],
        "a.o b.o ",
    ),
    // a WEAK definition, a number and a common define
    (
        &[
            ("a.o", "_start f? g? h?"),
            ("l.a(x.o)", "f~"),
            ("l.a(y.o)", "g="),
            ("l.a(z.o)", "h:"),
        ],
        "a.o l.a(x.o) l.a(y.o) l.a(z.o) ",
    ),
    (
        &[
            ("a.o", "_start f? g: "),
            ("l.a(x.o)", "f g?"),
            ("l.a(y.o)", "g"),
        ],
        "a.o l.a(x.o) ",
    ),
    // the entry is taken from a library
    (&[("a.o", "g"), ("l.a(x.o)", "_start")], "a.o l.a(x.o) "),
    (
        &[("l.a(x.o)", "_start f?"), ("l.a(y.o)", "f")],
        "l.a(x.o) l.a(y.o) ",
    ),
    // two libraries that need each other
    (
        &[
            ("a.o", "_start f?"),
            ("l.a(x.o)", "f g?"),
            ("l.a(y.o)", "h"),
            ("m.a(x.o)", "g h?"),
        ],
        "a.o l.a(x.o) l.a(y.o) m.a(x.o) ",
    ),
    // a library that is named twice: the second time nothing is open
    (
        &[
            ("a.o", "_start f?"),
            ("l.a(x.o)", "f"),
            ("b.o", "g"),
            ("l.a(x.o)", "f"),
        ],
        "a.o l.a(x.o) b.o ",
    ),
    // two members of one name
    (
        &[("a.o", "_start f?"), ("l.a(x.o)", "g"), ("l.a(x.o)", "f")],
        "a.o l.a(x.o) ",
    ),
    // a member that nobody provides for, and one that asks for what is nowhere
    (
        &[("a.o", "_start f? g?"), ("l.a(x.o)", "f h?")],
        "a.o l.a(x.o) ",
    ),
    // the base of the table of contents isn't asked for
    (&[("a.o", "_start .TOC.?"), ("l.a(x.o)", ".TOC.=")], "a.o "),
    (&[("a.o", "_start"), ("l.a", "")], "a.o "),
    (&[("l.a", "")], "no entry"),
    (&[("l.a(x.o)", "f")], "no entry"),
    (&[("l.a(note)", "!")], "no entry"),
    // an object is checked whole, a member as far as it is read
    (&[("a.o", "_start"), ("b.o", ".TOC.=")], "b.o: bad symbol"),
    (
        &[("a.o", "_start f?"), ("l.a(x.o)", "f .TOC.=")],
        "a.o l.a(x.o) ",
    ),
    (&[("a.o", "_start"), ("b.o", "!")], "b.o: no ELF file"),
];

#[test]
fn members_are_chosen(rt: HostRuntime) -> Result<(), Fail> {
    for (row, (files, job)) in JOBS.iter().enumerate() {
        let files = few(files_of(rt.alloc(), files)?)?;
        let found = outcome(rt.alloc(), files)?;
        assert_eq!(rt; found.as_str(), *job, "row {row}");
    }
    Ok(())
}

/// A job of one object and a library of this many members, of which each asks for the next.
fn chain(alloc: Global, count: u32) -> Result<Vec<FileBytes>, Fail> {
    let mut files = files_of(alloc, &[("a.o", "_start m0?")])?;
    let mut library = Vec::from_slice(alloc, b"!<arch>\n")?;
    for i in 0..count {
        let next = i.saturating_add(1);
        let words = format!(in alloc; "m{i} m{next}?")?;
        let bytes = object_of(alloc, words.as_str())?;
        put_member(alloc, &mut library, "x.o", &bytes)?;
    }
    files.push(FileBytes {
        name: String::from_str(alloc, "l.a")?,
        bytes: library,
    })?;
    Ok(files)
}

#[test]
fn a_chain_is_followed_to_its_end(rt: HostRuntime) -> Result<(), Fail> {
    for (count, files) in [(10, 11), (4095, 4096)] {
        let chain = few(chain(rt.alloc(), count)?)?;
        let Ok(job) = choose(rt.alloc(), chain, b"_start") else {
            return Err(Fail::from("a job"));
        };
        assert_eq!(rt; job.len(), files);
    }
    let found = outcome(rt.alloc(), few(chain(rt.alloc(), 4096)?)?)?;
    assert_eq!(rt; found.as_str(), "too many");
    Ok(())
}
