//! Laws of resolution. Each function carries a law as its contract and does nothing.

ghost use Rattle.scope_parts.specs.ResolutionLaws.{BehavioursAreOneThing, TextsAreOneThing};
ghost use Rattle.scope_parts.specs.WellFormedLaw.{TextsAreWellFormed};

/// A text stands for one specification at most, and breaks one rule first at most; so what a call
/// answers, it answers exactly where that is the resolution.
pub fn texts_are_one_thing()
    ensures behaviours { BehavioursAreOneThing }
    ensures texts { TextsAreOneThing }
{}

/// What a text stands for is well formed over the signature.
pub fn texts_are_well_formed()
    ensures { TextsAreWellFormed }
{}
