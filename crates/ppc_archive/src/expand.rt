// Libraries replaced by their chosen members.
ghost use Rattle.std.specs.Prelude.{◌≡◌, ◌++◌, ◌+◌, ◌∷◌, ◌≤◌, IfOk, OnOk, true, if◌then◌else◌, [], filter, length};
ghost use Rattle.std.specs.List.{flat_map};
ghost use Rattle.ppc_archive.specs.Archive.{is_library};
ghost use Rattle.ppc_archive.specs.Choice.{flagged};
ghost use Rattle.ppc_archive.specs.Expand.{named_file, named_files, is_candidate, named_member, candidates_in, kept_from, replaced, expanded_from};
ghost use Rattle.ppc_archive.specs.inside.Spots.{facts_of};
ghost use Rattle.ppc_archive.specs.inside.Reading.{IsWhole, AreWhole};

use crate::archive::{is_library, members};
use crate::library_member::Member;
use crate::read::file_name;
use object_set::FileBytes;
use ppc_bytes::has_magic;
use std::alloc::{AllocError, Global};

/// A member as a file of its own.
fn copied_member(alloc: Global, library: &str, member: Member<'_>) -> Result<FileBytes, AllocError>
    ensures { IfOk result (λ file. named_file file
        ≡ named_member library.now (facts_of member.entry)) }
{
    Ok(FileBytes {
        name: file_name(alloc, library, member.name)?,
        bytes: Vec::from_slice(alloc, member.bytes)?,
    })
}

/// Puts a candidate behind a job, where it is chosen.
fn put_candidate(
    alloc: Global,
    library: &str,
    member: Member<'_>,
    chosen: bool,
    job: &mut Vec<FileBytes>,
) -> Result<(), AllocError>
    ensures { OnOk result (named_files job.new.items
        ≡ named_files job.old.items
        ++ (if chosen then named_member library.now (facts_of member.entry) ∷ [] else [])) }
{
    if chosen {
        job.push(copied_member(alloc, library, member)?)?;
    }
    Ok(())
}

/// Puts the chosen members of a library behind a job, where its candidates are numbered from `first` on, and gives the number behind
/// them.
fn put_library(
    alloc: Global,
    library: &FileBytes,
    flags: &[bool],
    first: usize,
    job: &mut Vec<FileBytes>,
) -> Result<usize, AllocError>
    requires library { is_library (named_file library.now).bytes ≡ true }
    requires whole { IsWhole (named_file library.now) }
    requires room { first + length (candidates_in (named_file library.now)) ≤ length flags.now }
    ensures number { IfOk result (λ n.
        n ≡ first + length (candidates_in (named_file library.now))) }
    ensures job { OnOk result (named_files job.new.items
        ≡ named_files job.old.items
        ++ replaced (flagged flags.now) first (named_file library.now)) }
{
    let Ok(members) = members(library.bytes.as_slice()) else {
        unreachable!()
    };
    let mut number = first;
    for member in members.iter() {
        if has_magic(member.bytes) {
            put_candidate(alloc, library.name.as_str(), member, flags[number], job)?;
            number += 1;
        }
    }
    Ok(number)
}

/// The files of a link: each library is replaced by its members that are flagged.
pub fn expanded(
    alloc: Global,
    files: Vec<FileBytes>,
    flags: &[bool],
) -> Result<Vec<FileBytes>, AllocError>
    requires whole { AreWhole (named_files files.items) }
    requires count { length flags.now ≡ length (flat_map candidates_in (named_files files.items)) }
    ensures { IfOk result (λ job. named_files job.items
        ≡ expanded_from (flagged flags.now) 0 (named_files files.items)) }
{
    let mut job = Vec::new(alloc);
    let mut number = 0;
    for file in files {
        if is_library(file.bytes.as_slice()) {
            number = put_library(alloc, &file, flags, number, &mut job)?;
        } else {
            job.push(file)?;
        }
    }
    Ok(job)
}
