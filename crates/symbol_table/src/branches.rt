// Which places branches may go to.
ghost use Rattle.std.specs.Prelude.{◌≡◌};
ghost use Rattle.symbol_table.specs.Records.{is_code, may_call, may_branch};

use crate::definition::is_instruction;
use crate::resolved::Resolved;
use crate::target::Target;

/// Whether a place of text is an instruction's.
fn is_code(resolved: &Resolved, section: u32, offset: u64) -> bool
    ensures { result ≡ is_code resolved.now.files section offset }
{
    if resolved.text_count() <= section {
        return false;
    }
    let (file, number) = resolved.text_of(section);
    is_instruction(resolved.set(), file, number, offset)
}

/// Whether a call may go to a target: to an instruction, or to a weak symbol that stands for nothing.
pub fn may_call(resolved: &Resolved, target: Target) -> bool
    ensures { result ≡ may_call resolved.now.files target }
{
    match target {
        Target::Code { section, offset } => is_code(resolved, section, offset),
        Target::WeakNone(_) => true,
        Target::Data { .. } | Target::Number(_) | Target::TocBase { .. } => false,
    }
}

/// Whether a conditional branch of a section may go to a target: to an instruction of its own section.
pub fn may_branch(resolved: &Resolved, own: Option<u32>, target: Target) -> bool
    ensures { result ≡ may_branch resolved.now.files own target }
{
    match (own, target) {
        (Some(own), Target::Code { section, offset }) => {
            section == own && is_code(resolved, section, offset)
        }
        _ => false,
    }
}
