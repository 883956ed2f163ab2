// The files of a link, chosen.
ghost use Rattle.std.specs.Prelude.{◌≡◌, ◌≤◌, IfOk, [], length};
ghost use Rattle.std.specs.List.{flat_map};
ghost use Rattle.std.specs.Option.{option_map};
ghost use Rattle.ppc_archive.specs.Choice.{flagged, IsChoice};
ghost use Rattle.ppc_archive.specs.Expand.{named_files, fetched_refusals, candidates_in, pool_of_files, count_refusal, named_refusal};
ghost use Rattle.ppc_archive.specs.Chosen.{Chooses};
ghost use Rattle.ppc_archive.specs.inside.Reading.{FaultIs};

use crate::choice::least_choice;
use crate::expand::expanded;
use crate::fault::ChooseFault;
use crate::read::{read_files, refused};
use object_set::{FileBytes, Refusal};
use ppc_bytes::Bytes;
use std::alloc::Global;

/// How many files a link takes.
const COUNT_LIMIT: usize = 4096;

/// For each candidate of the files whether a link takes it, or the first refusal of the files.
fn chosen_flags(alloc: Global, files: &[FileBytes], entry: &[u8]) -> Result<Vec<bool>, ChooseFault>
    requires { length files.now ≤ 4096 }
    ensures fault { FaultIs result (fetched_refusals 0 (named_files files.now)) }
    ensures count { IfOk result (λ flags.
        length flags.items ≡ length (flat_map candidates_in (named_files files.now))) }
    ensures choice { IfOk result (λ flags.
        IsChoice (pool_of_files (named_files files.now) entry.now) (flagged flags.items)) }
{
    let read = read_files(alloc, files)?;
    Ok(least_choice(alloc, &read, entry)?)
}

/// Why a link can't take so many files.
fn count_fault(alloc: Global, count: usize, entry: &[u8]) -> Result<(), ChooseFault>
    ensures { FaultIs result (option_map (named_refusal []) (count_refusal entry.now count)) }
{
    if count == 0 {
        let name = Bytes::of(Vec::from_slice(alloc, entry)?);
        return Err(refused(alloc, b"", Refusal::NoEntry(name)));
    }
    if count > COUNT_LIMIT {
        return Err(refused(alloc, b"", Refusal::TooManyFiles));
    }
    Ok(())
}

/// The files that a link takes of those that were fetched: in place of each library those of its members that names need which no
/// object defines, in the order of the library. Or else the first refusal: of each file in order, a library's candidates among them,
/// and then of their number. Objects are moved, and chosen members are copied.
pub fn choose(
    alloc: Global,
    files: Vec<FileBytes>,
    entry: &[u8],
) -> Result<Vec<FileBytes>, ChooseFault>
    requires { length files.items ≤ 4096 }
    ensures { Chooses (named_files files.items) entry.now result }
{
    let flags = chosen_flags(alloc, files.as_slice(), entry)?;
    let job = expanded(alloc, files, flags.as_slice())?;
    count_fault(alloc, job.len(), entry)?;
    Ok(job)
}
