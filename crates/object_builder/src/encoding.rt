// The bytes of headers and entries.
ghost use Rattle.std.specs.Prelude.{◌≡◌, ◌++◌, ◌∷◌, [], OnOk, IfOk, vec_len};
ghost use Rattle.std.specs.Option.{unwrap_or};

use crate::header::FileHeader;
use crate::section::{Record, Stated, Symbol};
use ppc_bytes::{Memory, put_half, put_long, put_word};

/// A section header, by its fields.
#[derive(Clone, Copy)]
pub struct Header {
    pub name: u32,
    pub kind: u32,
    pub flags: u64,
    pub offset: u64,
    pub size: u64,
    pub link: u32,
    pub info: u32,
    pub align: u64,
    pub entry_size: u64,
}

impl Header {
    /// That of section 0.
    pub const NULL: Header = Header {
        name: 0,
        kind: 0,
        flags: 0,
        offset: 0,
        size: 0,
        link: 0,
        info: 0,
        align: 0,
        entry_size: 0,
    };

    /// The header with what is stated otherwise.
    pub(crate) fn with(self, stated: &Stated) -> Header
        ensures { result ≡ record {
          name = unwrap_or stated.now.name self.name;
          kind = unwrap_or stated.now.kind self.kind;
          flags = unwrap_or stated.now.flags self.flags;
          offset = unwrap_or stated.now.offset self.offset;
          size = unwrap_or stated.now.size self.size;
          link = unwrap_or stated.now.link self.link;
          info = unwrap_or stated.now.info self.info;
          align = unwrap_or stated.now.align self.align;
          entry_size = unwrap_or stated.now.entry_size self.entry_size;
        } }
    {
        Header {
            name: stated.name.unwrap_or(self.name),
            kind: stated.kind.unwrap_or(self.kind),
            flags: stated.flags.unwrap_or(self.flags),
            offset: stated.offset.unwrap_or(self.offset),
            size: stated.size.unwrap_or(self.size),
            link: stated.link.unwrap_or(self.link),
            info: stated.info.unwrap_or(self.info),
            align: stated.align.unwrap_or(self.align),
            entry_size: stated.entry_size.unwrap_or(self.entry_size),
        }
    }

    /// Its 64 bytes (ELF64, "Section Header"). Nothing has an address yet.
    pub(crate) fn bytes(&self) -> [u8; 64] {
        let mut bytes = [0; 64];
        put_word(&mut bytes, 0, self.name);
        put_word(&mut bytes, 4, self.kind);
        put_long(&mut bytes, 8, self.flags);
        put_long(&mut bytes, 24, self.offset);
        put_long(&mut bytes, 32, self.size);
        put_word(&mut bytes, 40, self.link);
        put_word(&mut bytes, 44, self.info);
        put_long(&mut bytes, 48, self.align);
        put_long(&mut bytes, 56, self.entry_size);
        bytes
    }
}

/// The 24 bytes of a symbol whose name stands at a place among the symbols' names (ELF64, "Symbol Table").
pub(crate) fn symbol_bytes(symbol: &Symbol, name: u32) -> [u8; 24] {
    let mut bytes = [0; 24];
    put_word(&mut bytes, 0, symbol.stated_name.unwrap_or(name));
    bytes[4] = symbol.info;
    bytes[5] = symbol.other;
    put_half(&mut bytes, 6, symbol.section);
    put_long(&mut bytes, 8, symbol.value);
    put_long(&mut bytes, 16, symbol.size);
    bytes
}

/// The 24 bytes of a record (ELF64, "Relocation").
pub(crate) fn record_bytes(rela: &Record) -> [u8; 24] {
    let mut bytes = [0; 24];
    put_long(&mut bytes, 0, rela.offset);
    put_word(&mut bytes, 8, rela.kind);
    put_word(&mut bytes, 12, rela.symbol);
    put_long(&mut bytes, 16, rela.addend.cast_unsigned());
    bytes
}

/// The 64 bytes of a file header: where the section headers begin, how many there are, and which section holds their names, unless
/// other values are stated (ELF64, "ELF Header").
pub(crate) fn file_header_bytes(
    header: &FileHeader,
    start: u64,
    count: u16,
    names: u16,
) -> [u8; 64] {
    let mut bytes = [0; 64];
    bytes[0] = header.magic[0];
    bytes[1] = header.magic[1];
    bytes[2] = header.magic[2];
    bytes[3] = header.magic[3];
    bytes[4] = header.class;
    bytes[5] = header.encoding;
    bytes[6] = header.ident_version;
    put_half(&mut bytes, 16, header.kind);
    put_half(&mut bytes, 18, header.machine);
    put_word(&mut bytes, 20, header.version);
    put_long(&mut bytes, 40, header.section_headers.unwrap_or(start));
    put_word(&mut bytes, 48, header.flags);
    put_half(&mut bytes, 52, 64);
    put_half(&mut bytes, 58, header.section_header_size);
    put_half(&mut bytes, 60, header.section_count.unwrap_or(count));
    put_half(&mut bytes, 62, header.section_names.unwrap_or(names));
    bytes
}

/// Puts bytes behind others.
pub fn append(to: &mut Vec<u8>, bytes: &[u8]) -> Result<(), Memory>
    ensures { OnOk result (to.new.items ≡ to.old.items ++ bytes.now) }
{
    to.extend_from_slice(bytes)?;
    Ok(())
}

/// Puts a name and its zero byte behind others, and says where it begins.
pub(crate) fn append_name(names: &mut Vec<u8>, name: &[u8]) -> Result<u32, Memory>
    ensures place { IfOk result (λ at. at ≡ vec_len names.old) }
    ensures name { OnOk result (names.new.items ≡ names.old.items ++ name.now ++ 0 ∷ []) }
{
    let at = word_of(names.len())?;
    append(names, name)?;
    append(names, &[0])?;
    Ok(at)
}

/// A count as a number of four bytes. An object with more has no place in memory.
pub fn word_of(count: usize) -> Result<u32, Memory>
    ensures { IfOk result (λ number. number ≡ count) }
{
    u32::try_from(count).map_err(|_| Memory)
}

/// A count as a number of two bytes, likewise.
pub fn half_of(count: u32) -> Result<u16, Memory>
    ensures { IfOk result (λ number. number ≡ count) }
{
    u16::try_from(count).map_err(|_| Memory)
}
