//! Identical behaviours. The function carries a law as its contract and does nothing.

ghost use Rattle.certificate_theory.specs.IdentityLaws.{IdentityOfBehavioursIsDecided};

/// A test that goes through two behaviours side by side decides whether they are identical, with
/// terms put in for their free variables or as they are.
pub fn identity_of_behaviours_is_decided()
    ensures { IdentityOfBehavioursIsDecided }
{}
