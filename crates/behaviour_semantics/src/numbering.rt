//! Numbers of leaves. The function carries one law as its contract and does nothing.

ghost use Rattle.behaviour_semantics.specs.NumberingLaws.{NumberingMakesNoDifference};

/// Where the leaves of moves and drafts are numbered from makes no difference, and the draft of
/// both sides of a parallel is the join of the drafts of the two sides.
pub fn numbering_makes_no_difference()
    ensures { NumberingMakesNoDifference }
{}
