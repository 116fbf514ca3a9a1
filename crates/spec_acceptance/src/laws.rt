//! Laws of acceptance. Each function carries a law as its contract and does nothing.

ghost use Rattle.spec_acceptance.specs.AcceptanceLaws.{
  AcceptanceIsDetermined,
  ScopesAreDecided,
};

/// By what is got under each name a specification is accepted in one way at most, or refused for
/// one fault, and the same files are got for it in the same order, where types are decided and have
/// well-formed data, and functionalities, ranks and books are decided.
pub fn acceptance_is_determined()
    ensures { AcceptanceIsDetermined }
{}

/// A text stands for one specification at most, or breaks one rule first.
pub fn scopes_are_decided()
    ensures { ScopesAreDecided }
{}
