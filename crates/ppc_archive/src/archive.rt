// Files in `ar` form.
ghost use Rattle.std.specs.Prelude.{◌≡◌, ◌≤◌, ◌<◌, IsTrue, IfOk, length};
ghost use Rattle.elf64_records.specs.declared.headers.TheConstants.{FILE_LIMIT};
ghost use Rattle.elf64_records.specs.First.{Refuses};
ghost use Rattle.ppc_archive.specs.Archive.{is_library, archive_fault, members_of};

use crate::header::{HeaderSpot, read_header};
use crate::member_list::Members;

/// Whether a file is a library: whether it begins with `!<arch>` and a newline.
pub fn is_library(bytes: &[u8]) -> bool
    ensures { result ≡ is_library bytes.now }
{
    bytes.starts_with(b"!<arch>\n")
}

/// The members of a library, or where the first header begins that isn't one.
pub fn members(bytes: &[u8]) -> Result<Members<'_>, u64>
    requires short { length bytes.now ≤ FILE_LIMIT }
    requires library { IsTrue (is_library bytes.now) }
    ensures fault { Refuses result (archive_fault bytes.now) }
    ensures members { IfOk result (λ members. members ≡ members_of bytes.now) }
{
    let mut spot = HeaderSpot { at: 8, names: None };
    let mut number = 0u32;
    let mut count = 0u32;
    while spot.at < bytes.len() {
        let Some(header) = read_header(bytes, spot) else {
            return Err(spot.at as u64);
        };
        count += header.member_count();
        spot = header.next;
        number += 1;
    }
    Ok(Members::of(bytes, count))
}
