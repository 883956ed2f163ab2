// The call sites of a link are found, and those that can't be linked refused.
ghost use Rattle.std.specs.Prelude.{◌≡◌, IfOk, None, length, nat_lt};
ghost use Rattle.elf64_records.specs.First.{Refuses, first_in, when};
ghost use Rattle.object_set.specs.Refusals.{Answers};
ghost use Rattle.object_set.specs.declared.refusal.Refusal.TheVariants.{TextTooBig};
ghost use Rattle.symbol_table.specs.Records.{records_refusal};
ghost use Rattle.call_sites.specs.Sites.{call_sites};
ghost use Rattle.call_sites.specs.Refusals.{restore_refusal, text_size, sites_refusal};

use crate::callees::{ready, text_section};
use crate::list::Sites;
use crate::site::CallSite;
use object_set::{Refusal, SectionId};
use ppc_bytes::constants::TEXT_LIMIT;
use std::alloc::Global;
use symbol_table::Resolved;

/// Refuses more text than can be.
fn check_text_size(res: &Resolved) -> Result<(), Refusal>
    ensures { let size = text_size res.now.files in
        Refuses result (when (nat_lt TEXT_LIMIT size) TextTooBig) }
{
    let mut total = 0;
    for number in 0..res.text_count() {
        let SectionId { file, section } = text_section(res, number);
        let size = res.set().view(file).section_header(section).size;
        if size > TEXT_LIMIT - total {
            return Err(Refusal::TextTooBig);
        }
        total += size;
    }
    Ok(())
}

/// Refuses the first call behind which r2 must be restored and has no slot for it.
fn check_restores(sites: &[CallSite]) -> Result<(), Refusal>
    ensures { Refuses result (first_in restore_refusal sites.now) }
{
    for site in sites {
        if site.restore && !site.slot {
            return Err(Refusal::NoRestore(site.site));
        }
    }
    Ok(())
}

/// The call sites of a link, where none of its records is refused, in site order: file, section, offset. `groups` has the number of each
/// file's TOC group. Refused are more than 0x20000000 bytes of text, and then the first call that needs r2 restored behind it and has no
/// restore slot (ELFv2 ABI, "Function Call": a nop behind a call is the linker's to restore the TOC base).
pub fn sites(alloc: Global, res: &Resolved, groups: &[u32]) -> Result<Sites, Refusal>
    requires sound { records_refusal res.now.files ≡ None }
    requires groups { length groups.now ≡ length res.now.files }
    ensures refusal { Answers result (sites_refusal res.now.files groups.now) }
    ensures sites { IfOk result (λ sites. sites ≡ call_sites res.now.files groups.now) }
{
    // none of the files is refused
    let _files = res.set().file_count();
    check_text_size(res)?;
    let calls = ready(alloc, res, groups)?;
    let items = calls.all(alloc)?;
    check_restores(&items)?;
    Ok(Sites { items })
}
