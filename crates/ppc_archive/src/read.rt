// The files of a link as they are read, before members are chosen.
ghost use Rattle.std.specs.Prelude.{◌≡◌, ◌++◌, ◌≤◌, ◌∷◌, codes, IfOk, OnOk, IsTrue, [], None, filter, length, string_bytes};
ghost use Rattle.std.specs.Option.{option_map};
ghost use Rattle.elf64_records.specs.declared.headers.TheConstants.{FILE_LIMIT};
ghost use Rattle.elf64_records.specs.First.{first_in};
ghost use Rattle.object_set.specs.Refusals.{file_refusal};
ghost use Rattle.ppc_archive.specs.Archive.{is_library};
ghost use Rattle.ppc_archive.specs.Expand.{named_file, named_files, named_refusal, is_candidate, named_member, candidate_refusal, library_refusal, fetched_refusal, fetched_refusals, candidates_in, objects_in};
ghost use Rattle.ppc_archive.specs.inside.Spots.{facts_of};
ghost use Rattle.ppc_archive.specs.inside.Reading.{Tells, FaultIs, bytes_of, candidate_bytes, object_bytes};

use crate::archive::{is_library, members};
use crate::choice::ReadFiles;
use crate::fault::ChooseFault;
use crate::library_member::Member;
use elf64_records::{FILE_LIMIT, ObjectView};
use object_set::{FileBytes, Refusal, fit_view, whole_view};
use ppc_bytes::{Bytes, has_magic};
use std::alloc::{AllocError, Global};

/// The name of a member as a file of its own: LIBRARY(MEMBER).
pub fn file_name(alloc: Global, library: &str, member: &str) -> Result<String, AllocError>
    ensures { IfOk result (λ name.
        string_bytes name ≡ library.now ++ codes "(" ++ member.now ++ codes ")") }
{
    let mut name = String::from_str(alloc, library)?;
    name.push_str("(")?;
    name.push_str(member)?;
    name.push_str(")")?;
    Ok(name)
}

/// A refusal of a file with this name.
pub fn refused(alloc: Global, name: &[u8], refusal: Refusal) -> ChooseFault
    ensures { Tells result (named_refusal name.now refusal) }
{
    match Vec::from_slice(alloc, name) {
        Ok(name) => ChooseFault::Refused {
            name: Bytes::of(name),
            refusal,
        },
        Err(_) => ChooseFault::Memory,
    }
}

/// A refusal of a member.
fn member_refused(
    alloc: Global,
    file: &FileBytes,
    member: Member<'_>,
    refusal: Refusal,
) -> ChooseFault
    ensures { Tells result (named_refusal
        (named_member (named_file file.now).name (facts_of member.entry)).name refusal) }
{
    match file_name(alloc, file.name.as_str(), member.name) {
        Ok(name) => refused(alloc, name.as_str().as_bytes(), refusal),
        Err(_) => ChooseFault::Memory,
    }
}

/// The view of an object.
fn read_object<'a>(
    alloc: Global,
    number: u32,
    file: &'a FileBytes,
) -> Result<ObjectView<'a>, ChooseFault>
    ensures fault { let f = named_file file.entry.now in
        FaultIs result (option_map (named_refusal f.name) (file_refusal number f.bytes)) }
    ensures view { IfOk result (λ view. view ≡ (named_file file.entry.now).bytes) }
{
    match fit_view(number, file.bytes.as_slice()) {
        Ok(view) => Ok(view),
        Err(refusal) => Err(refused(alloc, file.name.as_str().as_bytes(), refusal)),
    }
}

/// Takes in a member of a library, where it is a candidate.
fn read_member<'a>(
    alloc: Global,
    number: u32,
    file: &FileBytes,
    member: Member<'a>,
    candidates: &mut Vec<ObjectView<'a>>,
) -> Result<(), ChooseFault>
    ensures fault { FaultIs result (first_in (candidate_refusal number (named_file file.now))
        (filter is_candidate (facts_of member.entry ∷ []))) }
    ensures candidates { OnOk result (candidates.new.items
        ≡ candidates.old.items ++ bytes_of (filter is_candidate (facts_of member.entry ∷ []))) }
{
    if !has_magic(member.bytes) {
        return Ok(());
    }
    match whole_view(number, member.bytes) {
        Ok(view) => {
            candidates.push(view)?;
            Ok(())
        }
        Err(refusal) => Err(member_refused(alloc, file, member, refusal)),
    }
}

/// Takes in the candidates of a library.
fn read_library<'a>(
    alloc: Global,
    number: u32,
    file: &'a FileBytes,
    candidates: &mut Vec<ObjectView<'a>>,
) -> Result<(), ChooseFault>
    requires short { length file.now.bytes.items ≤ FILE_LIMIT }
    requires library { IsTrue (is_library file.now.bytes.items) }
    ensures fault { FaultIs result (library_refusal number (named_file file.entry.now)) }
    ensures candidates { OnOk result (candidates.new.items
        ≡ candidates.old.items ++ bytes_of (candidates_in (named_file file.entry.now))) }
{
    let members = match members(file.bytes.as_slice()) {
        Ok(members) => members,
        Err(at) => {
            let refusal = Refusal::BadArchive(number, at);
            return Err(refused(alloc, file.name.as_str().as_bytes(), refusal));
        }
    };
    for member in members.iter() {
        read_member(alloc, number, file, member, candidates)?;
    }
    Ok(())
}

/// Takes in a file.
#[tactic(auto, unfolding(crate::specs::Expand::fetched_refusal))]
fn read_file<'a>(
    alloc: Global,
    number: u32,
    file: &'a FileBytes,
    files: &mut ReadFiles<'a>,
) -> Result<(), ChooseFault>
    ensures fault { FaultIs result (fetched_refusal number (named_file file.entry.now)) }
    ensures objects { OnOk result (files.new.objects.items
        ≡ files.old.objects.items ++ bytes_of (objects_in (named_file file.entry.now))) }
    ensures candidates { OnOk result (files.new.candidates.items
        ≡ files.old.candidates.items ++ bytes_of (candidates_in (named_file file.entry.now))) }
{
    if !is_library(file.bytes.as_slice()) {
        let view = read_object(alloc, number, file)?;
        files.objects.push(view)?;
        return Ok(());
    }
    if file.bytes.len() > FILE_LIMIT {
        let refusal = Refusal::FileTooLong(number);
        return Err(refused(alloc, file.name.as_str().as_bytes(), refusal));
    }
    read_library(alloc, number, file, &mut files.candidates)
}

/// The files of a link as they are read, or the first refusal.
pub fn read_files(alloc: Global, files: &[FileBytes]) -> Result<ReadFiles<'_>, ChooseFault>
    requires { length files.now ≤ 4096 }
    ensures fault { FaultIs result (fetched_refusals 0 (named_files files.now)) }
    ensures objects { IfOk result (λ read.
        read.objects.items ≡ object_bytes (named_files files.now)) }
    ensures candidates { IfOk result (λ read.
        read.candidates.items ≡ candidate_bytes (named_files files.now)) }
{
    let mut read = ReadFiles {
        objects: Vec::new(alloc),
        candidates: Vec::new(alloc),
    };
    for (number, file) in files.iter().enumerate() {
        read_file(alloc, number as u32, file, &mut read)?;
    }
    Ok(read)
}
