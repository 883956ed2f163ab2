// Where the program is entered.
ghost use Rattle.std.specs.Prelude.{◌≡◌, None, IfOk};
ghost use Rattle.object_set.specs.Refusals.{set_refusal, Answers};
ghost use Rattle.symbol_table.specs.Candidates.{stands_for};
ghost use Rattle.symbol_table.specs.Targets.{entry_refusal, entry_place};

use crate::candidates::Resolution;
use crate::definition::instruction;
use crate::names::owned;
use crate::target::CodePlace;
use crate::text::TextSections;
use object_set::Refusal;
use std::alloc::Global;

/// The place of the entry, or its refusal: nothing has its name, or what the name stands for is no instruction.
pub fn find_entry(
    alloc: Global,
    texts: &TextSections,
    entry: &[u8],
    resolution: Resolution,
) -> Result<CodePlace, Refusal>
    requires whole { set_refusal texts.now ≡ None }
    requires resolution { resolution ≡ stands_for texts.now entry.now }
    ensures refusal { Answers result (entry_refusal texts.now entry.now) }
    ensures place { IfOk result (λ p. p ≡ entry_place texts.now entry.now) }
{
    match resolution {
        Resolution::Definition(symbol) => match instruction(texts, symbol.file, symbol.symbol) {
            Some(place) => Ok(place),
            None => Err(Refusal::EntryNotCode(owned(alloc, entry)?)),
        },
        Resolution::Common(_) => Err(Refusal::EntryNotCode(owned(alloc, entry)?)),
        Resolution::Undefined => Err(Refusal::NoEntry(owned(alloc, entry)?)),
    }
}
