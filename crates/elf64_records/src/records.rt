// Relocation records with addends.
ghost use Rattle.std.specs.Prelude.{◌≡◌, ◌<◌, ◌≤◌, ◌+◌, ◌*◌, ◌/◌, ◌%◌, ◌^◌, IsTrue, length};
ghost use Rattle.std.specs.Int.{cast_signed, w64};
ghost use Rattle.ppc_bytes.specs.Bytes.{number_at};
ghost use Rattle.elf64_records.specs.First.{Refuses, first_from};
ghost use Rattle.elf64_records.specs.Sections.{is_rela, sh_offset};
ghost use Rattle.elf64_records.specs.Records.{record_place};
ghost use Rattle.elf64_records.specs.Faults.{first_section, rela_fault, records_fault, record_fault};

use crate::fault::{ElfFault, Place};
use crate::symbols::Symbols;
use ppc_bytes::constants::SHT_RELA;
use ppc_bytes::long_at;

/// One relocation record.
#[derive(Clone, Copy, Debug, PartialEq, Eq)]
pub struct Rela {
    /// The offset of the field in its section (r_offset).
    pub offset: u64,
    /// The relocation's number, the low half of r_info.
    pub kind: u32,
    /// The symbol's number, the high half of r_info.
    pub symbol: u32,
    /// The addend (r_addend).
    pub addend: i64,
}

/// The record whose 24 bytes begin at a place.
pub fn record_at(bytes: &[u8], place: usize) -> Rela
    requires { place + 24 ≤ length bytes.now }
    ensures offset { result.offset ≡ number_at 8 bytes.now place }
    ensures kind { result.kind ≡ number_at 8 bytes.now (place + 8) % 2 ^ 32 }
    ensures symbol { result.symbol ≡ number_at 8 bytes.now (place + 8) / 2 ^ 32 }
    ensures addend { result.addend ≡ cast_signed w64 (number_at 8 bytes.now (place + 16)) }
{
    let info = long_at(bytes, place + 8);
    Rela {
        offset: long_at(bytes, place),
        kind: (info % (1 << 32)) as u32,
        symbol: (info >> 32) as u32,
        addend: long_at(bytes, place + 16).cast_signed(),
    }
}

#[tactic(auto, unfolding(crate::specs::Faults::record_fault, crate::specs::Records::r_symbol, crate::specs::Records::r_info))]
fn check_record(symbols: &Symbols, i: u32, place: usize, k: u32) -> Result<(), ElfFault>
    requires place { place ≡ record_place symbols.now.sections.headers.bytes.now i k }
    requires within { place + 24 ≤ length symbols.now.sections.headers.bytes.now }
    ensures { Refuses result (record_fault symbols.now.sections.headers.bytes.now i k) }
{
    let record = record_at(symbols.sections.headers.bytes, place);
    if record.symbol >= symbols.count {
        return Err(ElfFault::BadTable(Place::Record(i, k)));
    }
    Ok(())
}

#[tactic(auto, using(crate::specs::laws::First::walk_step, crate::specs::laws::First::walk_end))]
fn check_each(symbols: &Symbols, i: u32, start: usize, count: u32) -> Result<(), ElfFault>
    requires start { start ≡ sh_offset symbols.now.sections.headers.bytes.now i }
    requires within { start + 24 * count ≤ length symbols.now.sections.headers.bytes.now }
    ensures { let b = symbols.now.sections.headers.bytes.now in
        Refuses result (first_from (record_fault b i) 0 count) }
{
    for k in 0..count {
        check_record(symbols, i, start + 24 * k as usize, k)?;
    }
    Ok(())
}

#[tactic(auto, unfolding(crate::specs::Faults::records_fault))]
fn check_records(symbols: &Symbols, i: u32) -> Result<(), ElfFault>
    requires number { i < symbols.now.sections.headers.count }
    requires kind { IsTrue (is_rela symbols.now.sections.headers.bytes.now i) }
    ensures { Refuses result (records_fault symbols.now.sections.headers.bytes.now i) }
{
    let headers = symbols.sections.headers;
    if !headers.has_entries(i) || symbols.table == 0 || headers.link(i) != symbols.table {
        return Err(ElfFault::BadTable(Place::Section(i)));
    }
    let (start, count) = symbols.sections.entries(i);
    check_each(symbols, i, start, count)
}

#[tactic(auto, unfolding(crate::specs::Faults::rela_fault))]
fn check_rela(symbols: &Symbols, i: u32) -> Result<(), ElfFault>
    requires { i < symbols.now.sections.headers.count }
    ensures { Refuses result (rela_fault symbols.now.sections.headers.bytes.now i) }
{
    let headers = symbols.sections.headers;
    if headers.kind(i) != SHT_RELA {
        return Ok(());
    }
    let target = headers.info(i);
    if target >= headers.count {
        return Err(ElfFault::BadTable(Place::Section(i)));
    }
    if headers.is_kept(target) {
        check_records(symbols, i)
    } else {
        Ok(())
    }
}

/// The first fault of the records of kept sections.
#[tactic(auto, using(crate::specs::laws::First::walk_step, crate::specs::laws::First::walk_end))]
pub fn check_relas(symbols: &Symbols) -> Result<(), ElfFault>
    ensures { let b = symbols.now.sections.headers.bytes.now in
        Refuses result (first_section b (rela_fault b)) }
{
    for i in 1..symbols.sections.headers.count {
        check_rela(symbols, i)?;
    }
    Ok(())
}
