// Loads of addresses from their slots.
ghost use Rattle.std.specs.Prelude.{◌≡◌, ◌≤◌, ◌+◌, ℕ, Some, None, Contains, IsTrue, IfSome, length};
ghost use Rattle.elf64_records.specs.Sections.{section_bytes};
ghost use Rattle.object_set.specs.Files.{file_at};
ghost use Rattle.object_set.specs.Walks.{IsRecord};
ghost use Rattle.ppc_bytes.specs.Bytes.{InSigned as InSignedBits};
ghost use Rattle.power_insns.specs.Words.{InSigned};
ghost use Rattle.reloc_fields.specs.declared.kind.Kind.TheVariants.{GotPcrel34};
ghost use Rattle.toc_groups.specs.Contents.{AreOfFiles};
ghost use Rattle.toc_groups.specs.Values.{is_signed};
ghost use Rattle.toc_rewrite.specs.Words.{target_register};
ghost use Rattle.prefixed_insns.specs.ShortForms.{relative_form};
ghost use Rattle.pcrel_rewrite.specs.declared.words.ShortAccess.{ShortAccess};
ghost use Rattle.pcrel_rewrite.specs.Pairs.{ArePairs};
ghost use Rattle.pcrel_rewrite.specs.Rewriting.{address_sum};
ghost use Rattle.pcrel_rewrite.specs.TextPairs.{text_pair};
ghost use Rattle.pcrel_rewrite.specs.Words.{IsShortWord};
ghost use Rattle.placed_bytes.specs.Patches.{all_patched};
ghost use Rattle.image_writer.specs.Fields.{text_kind};
ghost use Rattle.image_writer.specs.GotLoads.{load_distance, load_patches, load_words, got_load, rewritten_load};
ghost use Rattle.image_writer.specs.Rewriting.{rewriting_of};
ghost use Rattle.image_writer.specs.inside.Loads.{IsAccessAt, paired_load, sum_of};

use layout_rounds::Places;
use object_set::RecordId;
use pcrel_rewrite::{Pairs, ShortAccess, rewrite_got, rewrite_pair, short_access};
use ppc_bytes::constants::NOP;
use ppc_bytes::{put_word, word_at};
use reloc_fields::Kind;
use symbol_table::Resolved;
use toc_groups::{DataPlan, field_address, record_of, section_of, symbol_address};
use toc_rewrite::target_register;

/// What takes the place of a load of an address from its slot.
#[derive(Clone, Copy)]
pub struct LoadWords {
    /// Its first word.
    pub prefix: u32,
    /// Its second word.
    pub suffix: u32,
    /// How many bytes behind the first word the access stands that isn't made any longer, if the load is that of a pair.
    pub nop: Option<u64>,
}

/// Puts what takes the place of a load into a text.
pub fn put_load(text: &mut [u8], at: usize, load: &LoadWords)
    requires room { at + 8 ≤ length text.old }
    requires nop_room { IfSome load.now.nop (λ distance. at + distance + 4 ≤ length text.old) }
    ensures put { text.new ≡ all_patched text.old (load_patches at load.now) }
    ensures size { length text.new ≡ length text.old }
{
    put_word(text, at, load.prefix);
    put_word(text, at + 4, load.suffix);
    if let Some(distance) = load.nop {
        put_word(text, at + distance as usize, NOP);
    }
}

/// How far the symbol whose address a record loads lies from the load.
fn load_distance(res: &Resolved, plan: &DataPlan, places: &Places, id: RecordId) -> i128
    requires of_files { AreOfFiles res.now.files plan.now places.now.sections }
    requires record { IsRecord res.now.files id }
    requires kind { text_kind res.now.files id ≡ Some GotPcrel34 }
    ensures distance { result ≡
        load_distance res.now.files plan.now.span places.now.sections id }
    ensures range { InSignedBits 66 result }
{
    let symbol = record_of(res, id).symbol;
    let address = symbol_address(res, plan, places, id.file, symbol);
    i128::from(address) - i128::from(field_address(res, plan, places, id))
}

/// Whether an instruction relative to its own address reaches so far.
fn is_near(distance: i128) -> bool
    ensures test { result ≡ is_signed 34 distance }
    ensures fact { IsTrue result → InSigned 34 distance }
{
    -0x2_0000_0000 <= distance && distance < 0x2_0000_0000
}

/// The access of a word that is one.
fn access_of(word: u32) -> ShortAccess
    requires { (access : ShortAccess) × IsShortWord word access }
    ensures { IsShortWord word result }
{
    match short_access(word) {
        Some(access) => access,
        None => unreachable!(),
    }
}

/// The load of a pair, which does what its access does, so far from its own address.
fn pair_load(access: &ShortAccess, distance: i64, nop: u64) -> LoadWords
    requires access { (word : ℕ) × IsShortWord word access.now }
    requires distance { InSigned 34 distance }
    ensures { result ≡ load_words (relative_form distance access.now.form) (Some nop) }
{
    match rewrite_pair(&access.insn, distance) {
        Some((prefix, suffix)) => LoadWords {
            prefix,
            suffix,
            nop: Some(nop),
        },
        None => unreachable!(),
    }
}

/// The sum of an address so far away, in the place of a load whose second word is this.
fn near_load(suffix: u32, distance: i64) -> LoadWords
    requires { InSigned 34 distance }
    ensures { result ≡ load_words (address_sum (target_register suffix) distance) None }
{
    let (prefix, suffix) = rewrite_got(target_register(suffix), distance);
    LoadWords {
        prefix,
        suffix,
        nop: None,
    }
}

/// The load of the pair whose load stands at an offset of a text section with these bytes, and its symbol so far from it, if there is
/// such a pair.
fn paired_load(
    pairs: &Pairs,
    section: u32,
    offset: u64,
    distance: i128,
    bytes: &[u8],
) -> Option<LoadWords>
    requires access { (tail : ℕ) → Contains pairs.now (text_pair section offset tail) →
        IsAccessAt bytes.now offset tail }
    requires one { (tail other : ℕ) → Contains pairs.now (text_pair section offset tail) →
        Contains pairs.now (text_pair section offset other) → tail ≡ other }
    requires range { InSignedBits 66 distance }
    ensures { result ≡ paired_load pairs.now section offset distance bytes.now }
{
    let tail = pairs.head(section, offset)?;
    let access = access_of(word_at(bytes, tail as usize));
    let reach = distance + i128::from(access.form.disp);
    if !is_near(reach) {
        return None;
    }
    Some(pair_load(&access, reach as i64, tail - offset))
}

/// The sum of an address so far from its load, at an offset of a section with these bytes, if it is near.
fn sum_of(distance: i128, offset: u64, bytes: &[u8]) -> Option<LoadWords>
    requires { offset + 8 ≤ length bytes.now }
    ensures { result ≡ sum_of distance offset bytes.now }
{
    if !is_near(distance) {
        return None;
    }
    let suffix = word_at(bytes, offset as usize + 4);
    Some(near_load(suffix, distance as i64))
}

/// What becomes of a load of an address, if it doesn't stay one. `bytes` are those of its section.
fn got_load(
    res: &Resolved,
    plan: &DataPlan,
    places: &Places,
    pairs: &Pairs,
    id: RecordId,
    bytes: &[u8],
) -> Option<LoadWords>
    requires of_files { AreOfFiles res.now.files plan.now places.now.sections }
    requires pairs { ArePairs res.now.files pairs.now }
    requires record { IsRecord res.now.files id }
    requires kind { text_kind res.now.files id ≡ Some GotPcrel34 }
    requires bytes { bytes.now ≡ section_bytes (file_at res.now.files id.file) id.section }
    ensures { result ≡ got_load res.now.files plan.now.span places.now.sections
        (rewriting_of res.now.files plan.now.span pairs.now) id }
{
    // none of the files is refused
    let _files = res.set().file_count();
    let section = res.text_number(id.file, section_of(res, id))?;
    let offset = record_of(res, id).offset;
    let distance = load_distance(res, plan, places, id);
    match paired_load(pairs, section, offset, distance, bytes) {
        Some(load) => Some(load),
        None => sum_of(distance, offset, bytes),
    }
}

/// What becomes of the word or words of a record of a kind, if they are a load of an address that doesn't stay one. `bytes` are those of
/// its section.
#[tactic(auto, unfolding(crate::specs::GotLoads::rewritten_load))]
pub fn rewritten_load(
    res: &Resolved,
    plan: &DataPlan,
    places: &Places,
    pairs: &Pairs,
    id: RecordId,
    kind: Kind,
    bytes: &[u8],
) -> Option<LoadWords>
    requires of_files { AreOfFiles res.now.files plan.now places.now.sections }
    requires pairs { ArePairs res.now.files pairs.now }
    requires record { IsRecord res.now.files id }
    requires kind { text_kind res.now.files id ≡ Some kind }
    requires bytes { bytes.now ≡ section_bytes (file_at res.now.files id.file) id.section }
    ensures { result ≡ rewritten_load res.now.files plan.now.span places.now.sections
        (rewriting_of res.now.files plan.now.span pairs.now) id kind }
{
    match kind {
        Kind::GotPcrel34 => got_load(res, plan, places, pairs, id, bytes),
        _ => None,
    }
}
