// The room that a piece of data takes, and where it lies behind others.
ghost use Rattle.std.specs.Prelude.{◌≡◌, ◌≤◌, ◌<◌, ◌^◌, nat_le, IfOk, OnOk, length};
ghost use Rattle.elf64_records.specs.First.{Refuses};
ghost use Rattle.elf64_records.specs.FileHeader.{e_shnum};
ghost use Rattle.object_set.specs.Files.{file_at};
ghost use Rattle.object_set.specs.Sections.{sort_of};
ghost use Rattle.toc_groups.specs.Runs.{behind, placed, IsFitExtent};
ghost use Rattle.toc_groups.specs.Sections.{same_sort, section_extent};
ghost use Rattle.toc_groups.specs.inside.Limits.{past_limit};

use elf64_exec::IMAGE_START;
use object_set::{ObjectSet, Refusal, Sort};
use ppc_bytes::align_up;

/// How many bytes data may have, from the image's start to the end of the last piece that isn't empty.
pub const DATA_LIMIT: u64 = 0x3000_0000;

/// Where data ends at the latest.
pub const DATA_END: u64 = IMAGE_START + DATA_LIMIT;

/// The room of a piece of data.
#[derive(Clone, Copy)]
pub struct Extent {
    /// Its size in bytes.
    pub size: u64,
    /// Its alignment in bytes.
    pub align: u64,
}

/// Whether a section of a file is of a sort.
pub fn is_of_sort(set: &ObjectSet, file: u32, section: u32, sort: Sort) -> bool
    requires file { file < length set.now }
    requires section { section < e_shnum (file_at set.now file) }
    ensures { result ≡ same_sort (sort_of (file_at set.now file) section) sort }
{
    same_sort(set.sort_of(file, section), sort)
}

/// Whether two sorts are the same.
fn same_sort(a: Sort, b: Sort) -> bool
    ensures { result ≡ same_sort a b }
{
    a == b
}

/// The room of a section of a file.
pub fn section_extent(set: &ObjectSet, file: u32, section: u32) -> Extent
    requires file { file < length set.now }
    requires section { section < e_shnum (file_at set.now file) }
    ensures { result ≡ section_extent (file_at set.now file) section }
{
    Extent {
        size: set.view(file).section_header(section).size,
        align: set.align_of(file, section),
    }
}

/// Where what is laid out ends with a piece more. An empty one takes no room.
pub fn behind(end: u64, piece: Extent) -> u64
    requires fit { IsFitExtent piece }
    requires end { end < 2 ^ 63 }
    requires size { piece.size < 2 ^ 62 }
    ensures { result ≡ behind end piece }
{
    if piece.size == 0 {
        end
    } else {
        align_up(end, piece.align) + piece.size
    }
}

/// Whether data has room for a piece more.
fn has_room(end: u64, piece: Extent) -> bool
    requires fit { IsFitExtent piece }
    requires low { end ≤ DATA_END }
    ensures { result ≡ nat_le (behind end piece) DATA_END }
{
    piece.size <= DATA_END && behind(end, piece) <= DATA_END
}

/// Lays out a piece behind what ends here, and gives its address.
pub fn lay(end: &mut u64, piece: Extent) -> u64
    requires fit { IsFitExtent piece }
    requires low { end.old ≤ DATA_END }
    requires room { behind end.old piece ≤ DATA_END }
    ensures address { result ≡ placed end.old piece }
    ensures end { end.new ≡ behind end.old piece }
{
    let address = align_up(*end, piece.align);
    *end = behind(*end, piece);
    address
}

/// Lays out a piece behind what ends here, and gives its address; or data is too big.
pub fn place(end: &mut u64, piece: Extent) -> Result<u64, Refusal>
    requires fit { IsFitExtent piece }
    requires low { end.old ≤ DATA_END }
    ensures refusal { Refuses result (past_limit (behind end.old piece)) }
    ensures address { IfOk result (λ address. address ≡ placed end.old piece) }
    ensures end { OnOk result (end.new ≡ behind end.old piece) }
{
    if !has_room(*end, piece) {
        return Err(Refusal::DataTooBig);
    }
    Ok(lay(end, piece))
}
