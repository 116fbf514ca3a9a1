//! Terms put into behaviours. The function carries a law as its contract and does nothing.

ghost use Rattle.behaviour_semantics.specs.ReplacementLaws.{ReplacementsCompose};

/// Putting terms into a behaviour composes.
pub fn replacements_compose()
    ensures { ReplacementsCompose }
{}
