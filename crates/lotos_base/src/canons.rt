//! The laws of canons.

ghost use Rattle.lotos_base.specs.CanonLaws.{
  CanonsAreEqualToTheirTerms,
  CanonsDecideEquality,
  CanonsHangOnEqualityAlone,
  CanonsPassThroughInstances,
  RenamedCanonsAreCanons,
  WithoutEquationsEqualIsIdentical,
  WithoutEquationsIdentityIsCanon,
};

/// A canon decides the equality of ground terms.
pub fn canons_decide_equality()
    ensures equal { CanonsAreEqualToTheirTerms }
    ensures decided { CanonsDecideEquality }
{}

/// A canon may be taken before terms are put for its variables, and renaming leaves it a canon.
pub fn canons_pass_through_instances()
    ensures instances { CanonsPassThroughInstances }
    ensures renamed { RenamedCanonsAreCanons }
{}

/// Where there are no equations, equality is identity and the identity function is a canon.
pub fn without_equations_equality_is_identity()
    ensures identity { WithoutEquationsEqualIsIdentical }
    ensures canon { WithoutEquationsIdentityIsCanon }
{}

/// A canon of data is one of any data with the same signature and the same equality, whatever its
/// equations.
pub fn canons_hang_on_equality_alone()
    ensures { CanonsHangOnEqualityAlone }
{}
