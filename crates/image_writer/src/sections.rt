// Text sections, and their bytes at their addresses.
ghost use Rattle.std.specs.Prelude.{◌≡◌, ◌+◌, ◌≤◌, ◌<◌, ℕ, length, slice_index};
ghost use Rattle.elf64_records.specs.Sections.{section_bytes};
ghost use Rattle.object_set.specs.Files.{file_at};
ghost use Rattle.symbol_table.specs.Text.{text_sections};
ghost use Rattle.symbol_table.specs.laws.Text.{IsTextSection};
ghost use Rattle.placed_bytes.specs.Patches.{all_patched, end_of};
ghost use Rattle.image_writer.specs.Text.{section_patch, section_patches, text_section};

use layout_rounds::Places;
use object_set::SectionId;
use placed_bytes::put_bytes;
use symbol_table::Resolved;

/// A text section by its number.
pub fn section_at(res: &Resolved, s: u32) -> SectionId
    requires { s < length (text_sections res.now.files) }
    ensures id { result ≡ text_section res.now.files s }
    ensures is { IsTextSection res.now.files s result.file result.section }
{
    let (file, section) = res.text_of(s);
    SectionId { file, section }
}

/// The bytes of a text section, as its file has them.
pub fn bytes_of<'a>(res: &Resolved<'a, '_>, s: u32) -> &'a [u8]
    requires { s < length (text_sections res.now.files) }
    ensures { let id = text_section res.now.files s in
        result.now ≡ section_bytes (file_at res.now.files id.file) id.section }
{
    let id = section_at(res, s);
    res.set().view(id.file).section(id.section).bytes
}

/// Puts the text sections at their addresses into a text that starts at `start`.
pub fn put_sections(text: &mut [u8], res: &Resolved, places: &Places, start: u64)
    requires count { length places.now.sections ≡ length (text_sections res.now.files) }
    requires from { (s : ℕ) → s < length places.now.sections →
        start ≤ slice_index places.now.sections s }
    requires to { (s : ℕ) → s < length places.now.sections →
        end_of (section_patch res.now.files places.now.sections start s) ≤ length text.old }
    ensures put { text.new ≡ all_patched text.old
        (section_patches res.now.files places.now.sections start) }
    ensures size { length text.new ≡ length text.old }
{
    for s in 0..res.text_count() {
        let at = places.section_at(s) - start;
        put_bytes(text, at as usize, bytes_of(res, s));
    }
}
