//! Laws of targets. The function carries the law as its contract and does nothing.

ghost use Rattle.step_parts.specs.TargetNodes.{ClosedPartsMakeStates};

/// A node whose environments close its behaviours, and that stands for a closed well-formed
/// behaviour, is a state.
pub fn closed_parts_make_states()
    ensures { ClosedPartsMakeStates }
{}
