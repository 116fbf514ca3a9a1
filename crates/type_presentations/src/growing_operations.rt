//! One more operation.

ghost use Rattle.type_presentations.specs.Growth.{with_one_operation};
ghost use Rattle.sort_terms.specs.Operations.{operation_of};
ghost use Rattle.sort_terms.specs.WellFormedTest.{has_known_sorts};
ghost use Rattle.std.specs.Prelude.{◌≡◌, false, true, IfOk, length};
ghost use Rattle.type_definitions.specs.Presentation.{has_operation_clash};
ghost use Rattle.type_presentations.specs.PresentationView.{
  IsSound,
  IsWithinLimits,
  presentation_of,
};

use crate::Presentation;
use lotos_base::NoMemory;
use sort_terms::Op;
use std::alloc::Global;
use std::rc::Rc;

/// Puts an operation over the sorts of the presentation at the end, and answers whether there was
/// one of its name, form and profile. Where there was one, the presentation is not to be used.
pub fn grow_by_op(alloc: Global, presentation: &mut Presentation, op: Op) -> Result<bool, NoMemory>
    requires sound { IsSound presentation.old }
    requires within { IsWithinLimits presentation.old }
    requires known { has_known_sorts (length (presentation_of presentation.old).signature.sorts)
        (operation_of op) ≡ true }
    ensures clash { IfOk result (λ clash. has_operation_clash
        (with_one_operation (presentation_of presentation.old) (operation_of op)) ≡ clash) }
    ensures grown { IfOk result (λ clash. clash ≡ false → (presentation_of presentation.new
        ≡ with_one_operation (presentation_of presentation.old) (operation_of op))
        × IsSound presentation.new) }
{
    let before = presentation.ops.ops().len();
    let added = presentation.ops.add(alloc, Rc::new(alloc, op)?)?;
    let after = presentation.ops.ops().len();
    Ok(added.clashes || after == before)
}
