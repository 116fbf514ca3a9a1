//! Presentations.

ghost use Rattle.std.specs.Prelude.{◌≡◌, ◌<◌, ◌^◌, length, nat_lt};
ghost use Rattle.type_definitions.specs.Actualisation.{is_formal, marked_from};
ghost use Rattle.type_definitions.specs.Presentation.{is_too_large, nothing};
ghost use Rattle.type_presentations.specs.MarksView.{IsKnown, marks_in};

use crate::marks::Marks;
use crate::{EquationList, OperationList, SortList};
use std::alloc::Global;

// How many sorts, operations or equations a presentation has at most.
const LIMIT: usize = 65_536;

/// The presentation of a type: its sorts, operations and equations, and the marks of what is
/// formal.
#[derive(Drop)]
pub struct Presentation {
    /// The sorts.
    pub sorts: SortList,
    /// The operations.
    pub ops: OperationList,
    /// The equations.
    pub equations: EquationList,
    /// The numbers of formal sorts.
    pub formal_sorts: Marks,
    /// The numbers of formal operations.
    pub formal_ops: Marks,
}

impl Presentation {
    ghost use Rattle.type_presentations.specs.PresentationView.{
      IsSound,
      IsWithinLimits,
      presentation_of,
    };

    /// Nothing at all.
    pub fn new(alloc: Global) -> Presentation
        ensures sound { IsSound result }
        ensures within { IsWithinLimits result }
        ensures nothing { presentation_of result ≡ nothing }
    {
        Presentation {
            sorts: SortList::new(alloc),
            ops: OperationList::new(alloc),
            equations: EquationList::new(alloc),
            formal_sorts: Marks::new(alloc),
            formal_ops: Marks::new(alloc),
        }
    }

    /// Whether a sort or an operation is formal.
    pub fn is_formal(&self) -> bool
        requires sound { IsSound self.now }
        requires within { IsWithinLimits self.now }
        ensures { result ≡ is_formal (presentation_of self.now) }
    {
        has_marked(&self.formal_sorts, self.sorts.sorts())
            || has_marked(&self.formal_ops, self.ops.ops())
    }

    /// Whether it has more than 65,536 sorts, operations or equations.
    pub fn is_too_large(&self) -> bool
        ensures { result ≡ is_too_large (presentation_of self.now) }
    {
        let sorts = self.sorts.sorts().len();
        let ops = self.ops.ops().len();
        let equations = self.equations.equations().len();
        LIMIT < sorts || LIMIT < ops || LIMIT < equations
    }
}

// Whether one of the members is marked.
fn has_marked<T>(marks: &Marks, members: &[T]) -> bool
    requires known { IsKnown marks.now }
    requires few { length members.now < 2 ^ 32 }
    ensures { result ≡ nat_lt 0 (length (marked_from (marks_in marks.now) 0 members.now)) }
{
    for number in 0..members.len() {
        if marks.has(number as u32) {
            return true;
        }
    }
    false
}
