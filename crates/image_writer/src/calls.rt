// Calls: their branches, and the words behind them.
ghost use Rattle.std.specs.Prelude.{◌≡◌, ◌+◌, ◌≤◌, ◌<◌, ◌^◌, ℕ, true, length};
ghost use Rattle.ppc_bytes.specs.Bytes.{InSigned};
ghost use Rattle.layout_rounds.specs.FarSets.{member};
ghost use Rattle.layout_rounds.specs.Layout.{key_count};
ghost use Rattle.placed_bytes.specs.Patches.{all_patched};
ghost use Rattle.image_writer.specs.Calls.{branch_address, call_address, call_at, call_number, call_patches, displacement, words_of_call};
ghost use Rattle.image_writer.specs.JobShape.{classed_by};
ghost use Rattle.image_writer.specs.inside.Ready.{HasCallRoom, IsBranchReady, IsCallReady};

use call_sites::{CallSite, site_words};
use layout_rounds::Settled;
use ppc_bytes::put_word;
use stub_kinds::size;
use symbol_table::Resolved;
use toc_groups::DataPlan;

/// The address to which a call branches that goes somewhere, by its number in the layout.
fn branch_address(res: &Resolved, plan: &DataPlan, settled: &Settled, n: u32) -> u64
    requires far { length settled.now.far ≡ key_count settled.now.keyed }
    requires ready { IsBranchReady res.now.files plan.now.bases settled.now.keyed
        (member settled.now.far) settled.now.places n }
    ensures address { result ≡ branch_address res.now.files plan.now.bases settled.now.keyed
        (member settled.now.far) settled.now.places n }
    ensures low { result < 2 ^ 62 }
{
    let k = settled.keyed.key_of(n);
    let key = settled.keyed.key(k);
    if size(key.class, settled.far.holds(k)) > 0 {
        settled.places.stub_at(k)
    } else {
        settled.places.section_at(key.section) + key.offset
    }
}

/// Puts the words of a call that branches so far.
fn put_call(text: &mut [u8], at: usize, site: &CallSite, displacement: i64)
    requires reaches { InSigned 26 displacement }
    requires room { at + 4 ≤ length text.old }
    requires slot_room { site.now.slot ≡ true → at + 8 ≤ length text.old }
    ensures put { text.new ≡ all_patched text.old (words_of_call at site.now displacement) }
    ensures size { length text.new ≡ length text.old }
{
    let (branch, slot) = site_words(site, displacement);
    put_word(text, at, branch);
    if let Some(word) = slot {
        put_word(text, at + 4, word);
    }
}

/// How many calls that go somewhere a call is.
fn classed_count(site: &CallSite) -> u32
    ensures count { result ≡ length (classed_by site.now site.now.class) }
    ensures few { result ≤ 1 }
{
    match site.class {
        Some(_) => 1,
        None => 0,
    }
}

/// How far a call branches, where `n` of those before it go somewhere; a call to nothing doesn't.
fn displacement(res: &Resolved, plan: &DataPlan, settled: &Settled, site: &CallSite, n: u32) -> i64
    requires far { length settled.now.far ≡ key_count settled.now.keyed }
    requires ready { IsCallReady res.now.files plan.now.bases settled.now.keyed
        (member settled.now.far) settled.now.places site.now n }
    ensures { result ≡ displacement res.now.files plan.now.bases settled.now.keyed
        (member settled.now.far) settled.now.places site.now n }
{
    if site.class.is_none() {
        return 0;
    }
    let at = settled.places.section_at(site.section) + site.offset;
    branch_address(res, plan, settled, n) as i64 - at as i64
}

/// Puts the calls into a text behind the data of a plan.
pub fn put_calls(
    text: &mut [u8],
    res: &Resolved,
    plan: &DataPlan,
    settled: &Settled,
    sites: &[CallSite],
)
    requires far { length settled.now.far ≡ key_count settled.now.keyed }
    requires few { length sites.now < 2 ^ 32 }
    requires ready { (i : ℕ) → i < length sites.now → IsCallReady res.now.files plan.now.bases
        settled.now.keyed (member settled.now.far) settled.now.places (call_at sites.now i)
        (call_number sites.now i) }
    requires room { (i : ℕ) → i < length sites.now → HasCallRoom res.now.files plan.now.bases
        settled.now.keyed (member settled.now.far) settled.now.places plan.now.text_start
        (length text.old) (call_at sites.now i) }
    ensures put { text.new ≡ all_patched text.old (call_patches res.now.files plan.now.bases
        settled.now.keyed (member settled.now.far) settled.now.places plan.now.text_start
        sites.now) }
    ensures size { length text.new ≡ length text.old }
{
    let mut n = 0;
    for site in sites {
        let at = settled.places.section_at(site.section) + site.offset - plan.text_start();
        let displacement = displacement(res, plan, settled, site, n);
        put_call(text, at as usize, site, displacement);
        n += classed_count(site);
    }
}
