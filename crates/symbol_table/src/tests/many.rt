// Text sections of two files, and a link of many files.
use super::listings::{entered, files_of, object};
use super::stands::wrong_in;
use crate::{Resolved, resolve};
use object_set::{FileBytes, ObjectSet};
use std::alloc::{AllocError, Global};
use std::test::Fail;

/// The file and section of each text section.
fn texts_told(alloc: Global, resolved: &Resolved) -> Result<String, AllocError> {
    let mut text = String::new(alloc);
    for number in 0..resolved.text_count() {
        let (file, section) = resolved.text_of(number);
        text.push_str(&format!(in alloc; "{file}.{section} ")?)?;
    }
    Ok(text)
}

/// The number that each section of the last file has among the text sections.
fn numbers_told(alloc: Global, resolved: &Resolved) -> Result<String, AllocError> {
    let mut text = String::new(alloc);
    let set = resolved.set();
    if set.file_count() == 0 {
        return Ok(text);
    }
    let file = set.file_count() - 1;
    for section in 0..set.view(file).section_count() {
        match resolved.text_number(file, section) {
            Some(number) => text.push_str(&format!(in alloc; "{number} ")?)?,
            None => text.push_str("- ")?,
        }
    }
    Ok(text)
}

/// The text sections of a link, and the numbers of the last file's sections.
fn told_of(alloc: Global, files: &[FileBytes]) -> Result<String, Fail> {
    if files.len() > 4096 {
        return Err(Fail::from("at most 4096 files"));
    }
    let Ok(set) = ObjectSet::take(alloc, files) else {
        return Err(Fail::from("object files"));
    };
    let Ok(resolved) = resolve(alloc, &set, b"_start") else {
        return Err(Fail::from("an entry"));
    };
    let mut text = texts_told(alloc, &resolved)?;
    text.push_str(&numbers_told(alloc, &resolved)?)?;
    Ok(text)
}

#[test]
fn text_sections_are_numbered_through_the_files(rt: HostRuntime) -> Result<(), Fail> {
    let files = files_of(rt.alloc(), "/ _start GLOBAL text 8")?;
    let told = told_of(rt.alloc(), &files)?;
    assert!(rt;
        told.as_str() == "0.1 0.3 1.1 1.3 - 2 - 3 - - - - ",
        "{told}"
    );
    Ok(())
}

/// 4096 files, each with a function that another one uses.
fn many_files(alloc: Global) -> Result<Vec<FileBytes>, Fail> {
    let mut files = Vec::new(alloc);
    for k in 0..4096u16 {
        let used = 4095 - k;
        let symbols = format!(in alloc; "f{k} GLOBAL text 4, f{used} GLOBAL undefined")?;
        files.push(object(alloc, &symbols)?)?;
    }
    Ok(files)
}

/// What symbols of these files stand for, the last one of the last file.
const ASKED: &str = "\
1 2 0 = 4094.1 code 8188.4; 1 0 -1 = none number 18446744073709551615; 4095 1 0 = 4095.1 code 8190.4; 4095 2 0 = 0.1 code 0.4";

#[test]
fn many_files_are_resolved(rt: HostRuntime) -> Result<(), Fail> {
    let files = many_files(rt.alloc())?;
    let wrong = wrong_in(rt.alloc(), &files, b"f3840", "", ASKED)?;
    assert!(rt; wrong.is_empty(), "{wrong}");
    let place = entered(rt.alloc(), &files, b"f3840")?.expect(&rt, "an entry");
    assert!(rt; place.section == 2 * 3840 && place.offset == 4);
    Ok(())
}
