//! The laws of derivable equality.

ghost use Rattle.std.specs.Prelude.{◌≡◌};
ghost use Rattle.lotos_base.specs.Equality.{Equal};
ghost use Rattle.lotos_base.specs.EqualityLaws.{
  EqualityHoldsInside,
  EqualityHoldsUnderOperations,
  EqualityIsReflexive,
  EqualityIsSymmetric,
  EqualityIsTransitive,
  EqualityKeepsGround,
  EqualityKeepsSorts,
  EqualValuesGiveEqualInstances,
  EquationsHold,
  IsCongruence,
  IsContained,
  WellFormedDataAreSorted,
};
ghost use Rattle.lotos_base.specs.Equation.{Data};
ghost use Rattle.lotos_base.specs.Term.{Term};

/// Equality is reflexive, symmetric and transitive.
pub fn equality_is_an_equivalence()
    ensures reflexive { EqualityIsReflexive }
    ensures symmetric { EqualityIsSymmetric }
    ensures transitive { EqualityIsTransitive }
{}

/// Equality is a congruence, at each path and under each operation, so that equal values give equal
/// instances.
pub fn equality_is_a_congruence()
    ensures inside { EqualityHoldsInside }
    ensures under_operations { EqualityHoldsUnderOperations }
    ensures instances { EqualValuesGiveEqualInstances }
{}

/// Well-formed data have what is asked of the data that a call is given.
pub fn well_formed_data_are_sorted()
    ensures { WellFormedDataAreSorted }
{}

/// Each ground instance of each equation holds.
pub fn equations_hold()
    ensures { EquationsHold }
{}

/// What is equal to a ground term is ground. Where the two sides of each equation have one sort,
/// what is equal to a term of some sort has that sort.
pub fn equality_keeps_terms()
    ensures ground { EqualityKeepsGround }
    ensures sorts { EqualityKeepsSorts }
{}

/// A relation that is a congruence on the terms of a domain, which no link leaves, and holds every
/// ground instance of every equation of its data.
pub trait Congruence {
    ghost equational_data: { Data };

    ghost domain: { Term → Type 0 };

    ghost related: { Term → Term → Type 0 };

    ghost is_congruence: { IsCongruence equational_data domain related };
}

/// Equality is contained in each such relation, so it is the least one.
pub fn equality_is_least<R: Congruence>()
    ensures { IsContained R.equational_data R.domain R.related }
{}
