//! The union of two presentations.

ghost use Rattle.type_presentations.specs.JoiningView.{IsJoining, in_one};
ghost use Rattle.type_presentations.specs.MentionView.{mentioned_of};
ghost use Rattle.type_presentations.specs.UnionMade.{IsJoinFault, IsJoined};
ghost use Rattle.std.specs.Prelude.{IfOk, MatchResult};
ghost use Rattle.type_presentations.specs.PresentationView.{
  IsSound,
  IsWithinLimits,
  presentation_of,
};

use crate::clashes::Clashes;
use crate::faults::{double_operation, double_sort, too_large};
use crate::mentions::Mention;
use crate::{EquationList, Marks, OperationList, Presentation, SortList};
use lotos_base::NoMemory;
use std::alloc::Global;
use type_definitions::TypeFault;

/// Joins the presentation that is mentioned to the first one, which keeps its numbers. It is
/// refused at the mention where two different sorts have one name, then where two different
/// operations have one name, form and profile, then where there are more than 65,536 sorts,
/// operations or equations; the first one is not to be used after that.
pub fn join(alloc: Global, first: &mut Presentation, mention: &Mention<'_>) -> Result<(), TypeFault>
    requires sound { IsSound first.old }
    requires within { IsWithinLimits first.old }
    requires other_sound { IsSound mention.now.presentation.now }
    requires other_within { IsWithinLimits mention.now.presentation.now }
    ensures { MatchResult result
        (λ _. IsJoined (presentation_of first.old) (mentioned_of mention.now) first.new)
        (λ fault. IsJoinFault (presentation_of first.old) (mentioned_of mention.now) fault) }
{
    let clashes = put_together(
        alloc,
        &mut first.sorts,
        &mut first.ops,
        &mut first.equations,
        &mut first.formal_sorts,
        &mut first.formal_ops,
        mention.presentation,
    )?;
    if clashes.sorts {
        return Err(double_sort(alloc, mention.place, mention.name));
    }
    if clashes.ops {
        return Err(double_operation(alloc, mention.place, mention.name));
    }
    if first.is_too_large() {
        return Err(too_large(alloc, mention.place, mention.name));
    }
    Ok(())
}

// Puts the other presentation behind the members of a first one, whatever clashes.
fn put_together(
    alloc: Global,
    sorts: &mut SortList,
    ops: &mut OperationList,
    equations: &mut EquationList,
    formal_sorts: &mut Marks,
    formal_ops: &mut Marks,
    other: &Presentation,
) -> Result<Clashes, NoMemory>
    requires sound { IsSound
        (in_one sorts.old ops.old equations.old formal_sorts.old formal_ops.old) }
    requires within { IsWithinLimits
        (in_one sorts.old ops.old equations.old formal_sorts.old formal_ops.old) }
    requires other_sound { IsSound other.now }
    requires other_within { IsWithinLimits other.now }
    ensures { IfOk result (λ clashes. IsJoining
        (presentation_of
        (in_one sorts.old ops.old equations.old formal_sorts.old formal_ops.old))
        (presentation_of other.now)
        (in_one sorts.new ops.new equations.new formal_sorts.new formal_ops.new) clashes) }
{
    let joined_sorts = sorts.join(alloc, &other.sorts, &[])?;
    let sort_numbers = joined_sorts.numbers.as_slice();
    let joined_ops = ops.join(alloc, &other.ops, sort_numbers)?;
    let op_numbers = joined_ops.numbers.as_slice();
    equations.join(alloc, &other.equations, sort_numbers, op_numbers, ops)?;
    formal_sorts.join(&other.formal_sorts, sort_numbers)?;
    formal_ops.join(&other.formal_ops, op_numbers)?;
    Ok(Clashes {
        sorts: joined_sorts.clash,
        ops: joined_ops.clash,
    })
}
