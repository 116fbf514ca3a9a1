//! Where moves lead. The function carries one law as its contract and does nothing.

ghost use Rattle.behaviour_semantics.specs.TargetLaws.{TargetsAreWellFormed};

/// Moves lead from closed well-formed behaviours to closed well-formed behaviours.
pub fn targets_are_well_formed()
    ensures { TargetsAreWellFormed }
{}
