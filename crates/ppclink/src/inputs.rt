// The input of a run.
ghost use Rattle.std.specs.Prelude.{◌≡◌, IfOk, IfErr, OnOk};
ghost use Rattle.std.specs.Option.{option_map};
ghost use Rattle.ppclink.specs.inside.Inputs.{HasInput, InputReport};

use crate::fetching::fetch;
use crate::lines::too_long_line;
use crate::report::{Report, text_report, unread_report};
use ppc_outside::Store;
use std::alloc::Global;

/// How many bytes the input of a run may have.
const INPUT_LIMIT: usize = 0x100_0000;

/// Fetches the input of a run from the named file, if there is one, behind all other files of the request; or what is to be reported where
/// it can't be read or is too long. Where none is named the input has no bytes.
pub fn fetch_input<S: Store>(
    alloc: Global,
    input: Option<&str>,
    store: &mut S,
) -> Result<Vec<u8>, Report>
    ensures ok { IfOk result (λ given. HasInput (S.state store.old).told
        (option_map (λ i. i.now) input.entry) given.items) }
    ensures kept { OnOk result (S.state store.new ≡ S.state store.old) }
    ensures report { IfErr result (InputReport (S.state store.old) (S.state store.new)
        (option_map (λ i. i.now) input.entry)) }
{
    let Some(name) = input else {
        return Ok(Vec::new(alloc));
    };
    match fetch(alloc, name, INPUT_LIMIT, store) {
        Ok(given) => {
            if given.len() > INPUT_LIMIT {
                Err(text_report(1, too_long_line(alloc, name)))
            } else {
                Ok(given)
            }
        }
        Err(error) => Err(unread_report(alloc, name, error)),
    }
}
