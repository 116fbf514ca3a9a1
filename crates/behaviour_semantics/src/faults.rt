//! Faults of derivations. Each function carries one law as its contract and does nothing.

ghost use Rattle.behaviour_semantics.specs.FaultLaws.{FaultlessWhereKept, FaultsAreTheFirst};

/// A derivation has no fault exactly where it gives the behaviour a move with canonical values.
pub fn faultless_where_kept()
    ensures { FaultlessWhereKept }
{}

/// The fault of a derivation is the faulty node that comes first in preorder.
pub fn faults_are_the_first()
    ensures { FaultsAreTheFirst }
{}
