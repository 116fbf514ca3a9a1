//! One more sort.

ghost use Rattle.type_presentations.specs.Growth.{with_one_sort};
ghost use Rattle.sort_terms.specs.Operations.{sort_of};
ghost use Rattle.std.specs.Prelude.{◌≡◌, false, IfOk};
ghost use Rattle.type_definitions.specs.Presentation.{has_sort_clash};
ghost use Rattle.type_presentations.specs.PresentationView.{
  IsSound,
  IsWithinLimits,
  presentation_of,
};

use crate::Presentation;
use lotos_base::NoMemory;
use sort_terms::Sort;
use std::alloc::Global;

/// Puts a sort at the end, and answers whether there was one of its name. Where there was one, the
/// presentation is not to be used.
pub fn grow_by_sort(
    alloc: Global,
    presentation: &mut Presentation,
    sort: &Sort,
) -> Result<bool, NoMemory>
    requires sound { IsSound presentation.old }
    requires within { IsWithinLimits presentation.old }
    ensures clash { IfOk result (λ clash. has_sort_clash
        (with_one_sort (presentation_of presentation.old) (sort_of sort.now)) ≡ clash) }
    ensures grown { IfOk result (λ clash. clash ≡ false → (presentation_of presentation.new
        ≡ with_one_sort (presentation_of presentation.old) (sort_of sort.now))
        × IsSound presentation.new) }
{
    let before = presentation.sorts.sorts().len();
    let added = presentation.sorts.add(alloc, sort.copy(alloc)?)?;
    let after = presentation.sorts.sorts().len();
    Ok(added.clashes || after == before)
}
