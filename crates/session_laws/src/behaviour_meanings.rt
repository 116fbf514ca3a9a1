//! Laws of the names in printed behaviours. Each function carries a law as its contract and does
//! nothing.

ghost use Rattle.session_laws.specs.MeaningLaws.{
  ResolvedBehavioursMeanThemselves,
  WrittenBehavioursAreResolved,
};

/// The names in what a behaviour of a text stands for mean, where it is written, what they are
/// printed for: none is hidden by another one, and each declaration has the next number
/// (ISO 8807:1989, static semantics).
pub fn resolved_behaviours_mean_themselves()
    ensures { ResolvedBehavioursMeanThemselves }
{}

/// A behaviour whose names mean in a scope what they are printed for is what that which it is
/// written as stands for there, with the very numbers of its gates, variables and processes
/// (ISO 8807:1989, static semantics).
pub fn written_behaviours_are_resolved()
    ensures { WrittenBehavioursAreResolved }
{}
