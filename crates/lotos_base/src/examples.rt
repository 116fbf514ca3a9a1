//! Computed cases, which show that the definitions say what a textbook says.

ghost use Rattle.std.specs.Prelude.{◌≡◌};
ghost use Rattle.lotos_base.specs.SmallData.{bare_data, natural_data, natural_meaning};
ghost use Rattle.lotos_base.specs.Examples.{
  CanonExamples,
  EqualBareTermsAreIdentical,
  EqualNaturalTermsMeanTheSame,
  EqualityExamples,
  PathExamples,
  SignatureExamples,
  SortedDataExamples,
  SortingExamples,
  SubstitutionExamples,
  TwinExamples,
  identity_is_congruence,
  natural_meaning_is_congruence,
};

use crate::equality::{Congruence, equality_is_least};

/// Signatures and equations, well formed and not.
pub fn signature_examples()
    ensures { SignatureExamples }
{}

/// Twins, and operations that differ in more or in less than their result.
pub fn twin_examples()
    ensures { TwinExamples }
{}

/// Data whose equations have sorted sides, with and without one sort for each variable number.
pub fn sorted_data_examples()
    ensures { SortedDataExamples }
{}

/// Well-sorted and ill-sorted terms, ground terms, variables that occur, well-formed data.
pub fn sorting_examples()
    ensures { SortingExamples }
{}

/// Subterms and replacements in f(f(a)) and x + Succ(y).
pub fn path_examples()
    ensures { PathExamples }
{}

/// Terms put for x and y, one after the other, and below a binder.
pub fn substitution_examples()
    ensures { SubstitutionExamples }
{}

/// What 0 + x = x, Succ(x) + y = Succ(x + y) and f(f(x)) = f(x) derive, and what they do not.
pub fn equality_examples()
    ensures { EqualityExamples }
{}

/// Leaving out each meet of a term with itself is a canon of meet(x, x) = x, and the identity
/// function is none.
pub fn canon_examples()
    ensures { CanonExamples }
{}

/// Identity of terms, over natural numbers without equations.
pub struct Identity;

impl Congruence for Identity {
    ghost equational_data = { bare_data };

    ghost domain = { λ t. Unit {0} };

    ghost related = { λ t u. t ≡ u };

    ghost is_congruence = { identity_is_congruence };
}

/// Without equations identity is such a relation, so equal terms are identical.
pub fn equal_bare_terms_are_identical()
    ensures { EqualBareTermsAreIdentical }
{
    equality_is_least::<Identity>()
}

/// Meaning the same number, over natural numbers with 0, Succ and +.
pub struct SameMeaning;

impl Congruence for SameMeaning {
    ghost equational_data = { natural_data };

    ghost domain = { λ t. Unit {0} };

    ghost related = { λ t u. natural_meaning t ≡ natural_meaning u };

    ghost is_congruence = { natural_meaning_is_congruence };
}

/// The equations of 0, Succ and + are true of numbers, so equal terms mean the same number.
pub fn equal_natural_terms_mean_the_same()
    ensures { EqualNaturalTermsMeanTheSame }
{
    equality_is_least::<SameMeaning>()
}
