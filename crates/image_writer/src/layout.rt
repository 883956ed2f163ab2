// The layout of a job's text.
ghost use Rattle.std.specs.Prelude.{◌≡◌, ◌+◌, ◌≤◌, ◌<◌, length, IfOk, IfErr};
ghost use Rattle.layout_rounds.specs.declared.settling.LayoutFault.TheVariants as fault;
ghost use Rattle.layout_rounds.specs.Shapes.{IsSound, IsSpan};
ghost use Rattle.image_writer.specs.Job.{IsJob, IsShapeOf};
ghost use Rattle.image_writer.specs.JobShape.{classed_sites};
ghost use Rattle.image_writer.specs.LaidText.{HasCalls, IsLaidText, IsTextRefusal};

use crate::shape::{call_numbered, shape_of};
use call_sites::CallSite;
use layout_rounds::{LayoutFault, Settled, Shape, settle, some_far_set};
use object_set::Refusal;
use ppc_bytes::{Memory, Steps};
use std::alloc::Global;
use std::sync::ledger::Ledger;
use symbol_table::Resolved;
use toc_groups::{DataPlan, data_is_placed};

/// The shape of a job, of which a text can be laid out.
fn sound_shape(
    alloc: Global,
    res: &Resolved,
    plan: &DataPlan,
    sites: &[CallSite],
) -> Result<Shape, Memory>
    requires calls { HasCalls res.now.files plan.now sites.now }
    ensures shape { IfOk result (λ shape. IsShapeOf res.now.files plan.now sites.now shape) }
    ensures sound { IfOk result (λ shape. IsSound shape) }
    ensures few { IfOk result (λ shape. length shape.sites.items ≤ length sites.now) }
{
    // none of the files is refused
    let _files = res.set().file_count();
    data_is_placed();
    let shape = shape_of(alloc, res, plan, sites)?;
    Ok(shape)
}

/// Lays out the text of a job: its sections in stub groups, and the least set of far stubs with which each call and each stub reaches
/// where it branches to by at most `span` bytes; or the reason why there is no such text: it ends more than 0x20000000 bytes past its
/// start, or else the first call that doesn't reach its stub (ELFv2 ABI, "Function Call").
pub fn lay_text<L: Ledger>(
    alloc: Global,
    res: &Resolved,
    plan: &DataPlan,
    sites: &[CallSite],
    span: u32,
    steps: &mut Steps<L>,
) -> Result<Settled, Refusal>
    requires calls { HasCalls res.now.files plan.now sites.now }
    requires span { IsSpan span }
    ensures laid { IfOk result (λ s. IsLaidText
        res.now.files plan.now sites.now span s.keyed s.far s.places) }
    ensures job { IfOk result (λ s. IsJob
        res.now.files plan.now sites.now s.keyed s.far s.places) }
    ensures refusal { IfErr result (IsTextRefusal res.now.files plan.now sites.now span) }
    ensures ticks { steps.new ≤ steps.old + length sites.now + 1 }
{
    let Ok(shape) = sound_shape(alloc, res, plan, sites) else {
        return Err(Refusal::Memory);
    };
    some_far_set();
    match settle(alloc, &shape, span, steps) {
        Ok(settled) => Ok(settled),
        Err(LayoutFault::TextTooBig) => Err(Refusal::TextTooBig),
        Err(LayoutFault::StubReach(i)) => Err(Refusal::StubReach(call_numbered(sites, i))),
        Err(LayoutFault::Memory) => Err(Refusal::Memory),
    }
}
