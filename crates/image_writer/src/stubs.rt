// Stubs at their addresses.
ghost use Rattle.std.specs.Prelude.{◌≡◌, ◌+◌, ◌*◌, ◌≤◌, ◌<◌, ℕ, IfOk, length};
ghost use Rattle.stub_kinds.specs.Stubs.{size_of};
ghost use Rattle.symbol_table.specs.Text.{text_sections};
ghost use Rattle.layout_rounds.specs.FarSets.{member};
ghost use Rattle.layout_rounds.specs.Layout.{key_count, section_count, stub_size};
ghost use Rattle.placed_bytes.specs.Patches.{all_patched};
ghost use Rattle.image_writer.specs.Counts.{stubs_size};
ghost use Rattle.image_writer.specs.Text.{eight_words, stub_patch, stub_patches, stub_text, word_patches};
ghost use Rattle.image_writer.specs.inside.Ready.{AreCallerBases, HasStubRoom, IsStubReady};

use crate::sections::section_at;
use layout_rounds::{Keyed, Settled};
use ppc_bytes::put_word;
use std::alloc::{AllocError, Global};
use stub_kinds::{size, stub_words};
use symbol_table::Resolved;
use toc_groups::DataPlan;

/// The TOC base of the callers in each stub group: the files of a stub group are of one TOC group.
pub fn caller_bases(
    alloc: Global,
    res: &Resolved,
    plan: &DataPlan,
    settled: &Settled,
) -> Result<Vec<u64>, AllocError>
    requires sections { section_count settled.now.keyed ≡ length (text_sections res.now.files) }
    requires bases { length plan.now.bases ≡ length res.now.files }
    ensures { IfOk result (λ callers.
        AreCallerBases res.now.files plan.now.bases settled.now.keyed (member settled.now.far)
        settled.now.places (section_count settled.now.keyed) callers.items) }
{
    let mut callers = vec![in alloc; 0u64; settled.keyed.group_count() as usize]?;
    for s in 0..res.text_count() {
        callers[settled.keyed.group_of(s) as usize] = plan.base_of(section_at(res, s).file);
    }
    Ok(callers)
}

/// Puts words one behind the other.
pub fn put_words(text: &mut [u8], at: usize, words: &[u32])
    requires { at + 4 * length words.now ≤ length text.old }
    ensures put { text.new ≡ all_patched text.old (word_patches at words.now) }
    ensures size { length text.new ≡ length text.old }
{
    for i in 0..words.len() {
        put_word(text, at + 4 * i, words[i]);
    }
}

/// The words of the stub of a key, with nops behind them.
fn key_words(
    res: &Resolved,
    plan: &DataPlan,
    settled: &Settled,
    callers: &[u64],
    k: u32,
) -> [u32; 8]
    requires key { k < key_count settled.now.keyed }
    requires far { length settled.now.far ≡ key_count settled.now.keyed }
    requires bases { length plan.now.bases ≡ length res.now.files }
    requires callers { AreCallerBases res.now.files plan.now.bases settled.now.keyed
        (member settled.now.far) settled.now.places (section_count settled.now.keyed) callers.now }
    requires ready { IsStubReady res.now.files plan.now.bases settled.now.keyed
        (member settled.now.far) settled.now.places k }
    ensures { result ≡ eight_words res.now.files plan.now.bases settled.now.keyed
        (member settled.now.far) settled.now.places k }
{
    let key = settled.keyed.key(k);
    stub_words(
        key.class,
        settled.far.holds(k),
        settled.places.stub_at(k),
        settled.places.section_at(key.section) + key.offset,
        callers[key.group as usize],
        plan.base_of(section_at(res, key.section).file),
    )
}

/// Puts the stub of a key at its address into a text behind the data of a plan, if it isn't empty.
fn put_stub(
    text: &mut [u8],
    res: &Resolved,
    plan: &DataPlan,
    settled: &Settled,
    callers: &[u64],
    k: u32,
)
    requires key { k < key_count settled.now.keyed }
    requires far { length settled.now.far ≡ key_count settled.now.keyed }
    requires bases { length plan.now.bases ≡ length res.now.files }
    requires callers { AreCallerBases res.now.files plan.now.bases settled.now.keyed
        (member settled.now.far) settled.now.places (section_count settled.now.keyed) callers.now }
    requires ready { 0 < stub_size settled.now.keyed (member settled.now.far) k →
        IsStubReady res.now.files plan.now.bases settled.now.keyed (member settled.now.far)
        settled.now.places k }
    requires room { 0 < stub_size settled.now.keyed (member settled.now.far) k →
        HasStubRoom res.now.files plan.now.bases settled.now.keyed (member settled.now.far)
        settled.now.places plan.now.text_start (length text.old) k }
    ensures put { text.new ≡ all_patched text.old (stub_patch res.now.files plan.now.bases
        settled.now.keyed (member settled.now.far) settled.now.places plan.now.text_start k) }
    ensures size { length text.new ≡ length text.old }
{
    let size = size(settled.keyed.key(k).class, settled.far.holds(k));
    if size == 0 {
        return;
    }
    let words = key_words(res, plan, settled, callers, k);
    let at = settled.places.stub_at(k) - plan.text_start();
    put_words(text, at as usize, &words[..(size / 4) as usize]);
}

/// Puts the stubs at their addresses into a text behind the data of a plan.
pub fn put_stubs(
    text: &mut [u8],
    res: &Resolved,
    plan: &DataPlan,
    settled: &Settled,
    callers: &[u64],
)
    requires far { length settled.now.far ≡ key_count settled.now.keyed }
    requires bases { length plan.now.bases ≡ length res.now.files }
    requires callers { AreCallerBases res.now.files plan.now.bases settled.now.keyed
        (member settled.now.far) settled.now.places (section_count settled.now.keyed) callers.now }
    requires ready { (k : ℕ) → k < key_count settled.now.keyed →
        0 < stub_size settled.now.keyed (member settled.now.far) k → IsStubReady res.now.files
        plan.now.bases settled.now.keyed (member settled.now.far) settled.now.places k }
    requires room { (k : ℕ) → k < key_count settled.now.keyed →
        0 < stub_size settled.now.keyed (member settled.now.far) k → HasStubRoom res.now.files
        plan.now.bases settled.now.keyed (member settled.now.far) settled.now.places
        plan.now.text_start (length text.old) k }
    ensures put { text.new ≡ all_patched text.old (stub_patches res.now.files plan.now.bases
        settled.now.keyed (member settled.now.far) settled.now.places plan.now.text_start) }
    ensures size { length text.new ≡ length text.old }
{
    for k in 0..settled.keyed.key_count() {
        put_stub(text, res, plan, settled, callers, k);
    }
}

/// How many bytes the stubs of a layout have, without padding.
pub fn stub_bytes(settled: &Settled) -> u64
    requires { length settled.now.far ≡ key_count settled.now.keyed }
    ensures { result ≡ stubs_size settled.now.keyed (member settled.now.far)
        (key_count settled.now.keyed) }
{
    let mut total = 0;
    for k in 0..settled.keyed.key_count() {
        total += u64::from(size(settled.keyed.key(k).class, settled.far.holds(k)));
    }
    total
}
