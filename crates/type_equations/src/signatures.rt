//! The signature of a presentation.

ghost use Rattle.sort_terms.specs.Operations.{operation_of, sort_of};
ghost use Rattle.sort_terms.specs.SignatureView.{signature_of, twin_marks_of};
ghost use Rattle.sort_terms.specs.TwinMarks.{twin_marks as marks_of};
ghost use Rattle.std.specs.Prelude.{◌≡◌, IfOk, map};
ghost use Rattle.type_presentations.specs.PresentationView.{
  IsSound,
  IsWithinLimits,
  presentation_of,
};

use crate::twins::twin_marks;
use lotos_base::NoMemory;
use sort_terms::{Op, Signature, Sort};
use std::alloc::Global;
use std::rc::Rc;
use type_presentations::Presentation;

/// The sorts and operations of the presentation.
pub fn signature_copy(alloc: Global, presentation: &Presentation) -> Result<Signature, NoMemory>
    requires sound { IsSound presentation.now }
    requires within { IsWithinLimits presentation.now }
    ensures { IfOk result (λ s. signature_of s ≡ (presentation_of presentation.now).signature) }
{
    let sorts = sort_copies(alloc, presentation.sorts.sorts())?;
    let ops = op_copies(alloc, presentation.ops.ops())?;
    Ok(Signature::of(sorts, ops))
}

/// The sorts and operations of the presentation, and for each operation whether it has a twin.
pub fn signature_with_twins(
    alloc: Global,
    presentation: &Presentation,
) -> Result<Signature, NoMemory>
    requires sound { IsSound presentation.now }
    requires within { IsWithinLimits presentation.now }
    ensures lists { IfOk result (λ s. signature_of s
        ≡ (presentation_of presentation.now).signature) }
    ensures marks { IfOk result (λ s. twin_marks_of s
        ≡ marks_of (presentation_of presentation.now).signature.operations) }
{
    let sorts = sort_copies(alloc, presentation.sorts.sorts())?;
    let ops = op_copies(alloc, presentation.ops.ops())?;
    let twins = twin_marks(alloc, ops.as_slice())?;
    Ok(Signature::marked(sorts, ops, twins))
}

// The same sorts.
fn sort_copies(alloc: Global, sorts: &[Sort]) -> Result<Vec<Sort>, NoMemory>
    ensures { IfOk result (λ made. map sort_of made.items ≡ map sort_of sorts.now) }
{
    let mut made = Vec::with_capacity(alloc, sorts.len())?;
    for sort in sorts {
        made.push(sort.copy(alloc)?)?;
    }
    Ok(made)
}

// The same operations.
fn op_copies(alloc: Global, ops: &[Rc<Op>]) -> Result<Vec<Op>, NoMemory>
    ensures { IfOk result (λ made. map operation_of made.items
        ≡ map (λ op. operation_of op.value) ops.now) }
{
    let mut made = Vec::with_capacity(alloc, ops.len())?;
    for op in ops {
        made.push(op.copy()?)?;
    }
    Ok(made)
}
