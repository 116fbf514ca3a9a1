//! The table of moves and the rules of the standard. Each function carries one law as its contract
//! and does nothing.

ghost use Rattle.behaviour_semantics.specs.TransitionLaws.{TransitionsAreDerived, MovesAreDetermined};

/// A transition exists exactly where some derivation gives it.
pub fn transitions_are_derived()
    ensures { TransitionsAreDerived }
{}

/// A behaviour and a derivation determine label, target and what is asked.
pub fn moves_are_determined()
    ensures { MovesAreDetermined }
{}
