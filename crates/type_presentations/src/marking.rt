//! Marks of what is formal.

ghost use Rattle.type_presentations.specs.Growth.{with_operation_mark, with_sort_mark};
ghost use Rattle.std.specs.Prelude.{◌≡◌, OnOk};
ghost use Rattle.type_presentations.specs.PresentationView.{IsSound, presentation_of};

use crate::Presentation;
use lotos_base::NoMemory;

/// Marks the sort of this number, if it is formal.
pub fn mark_sort(
    presentation: &mut Presentation,
    is_formal: bool,
    number: u32,
) -> Result<(), NoMemory>
    requires sound { IsSound presentation.old }
    ensures marked { OnOk result (presentation_of presentation.new
        ≡ with_sort_mark (presentation_of presentation.old) is_formal number) }
    ensures sound { OnOk result (IsSound presentation.new) }
{
    if is_formal {
        presentation.formal_sorts.append(number)?;
        return Ok(());
    }
    Ok(())
}

/// Marks the operation of this number, if it is formal.
pub fn mark_op(
    presentation: &mut Presentation,
    is_formal: bool,
    number: u32,
) -> Result<(), NoMemory>
    requires sound { IsSound presentation.old }
    ensures marked { OnOk result (presentation_of presentation.new
        ≡ with_operation_mark (presentation_of presentation.old) is_formal number) }
    ensures sound { OnOk result (IsSound presentation.new) }
{
    if is_formal {
        presentation.formal_ops.append(number)?;
        return Ok(());
    }
    Ok(())
}
