//! Laws of start values. Each function carries a law as its contract and does nothing.

ghost use Rattle.refusal_lines.specs.StartLaws.{StartValuesAreGround, StartsHaveOneOutcome};

/// The words are one list of values at most, or have one fault first, and not both.
pub fn starts_have_one_outcome()
    ensures { StartsHaveOneOutcome }
{}

/// Start values are ground terms of the sorts of the parameters.
pub fn start_values_are_ground()
    ensures { StartValuesAreGround }
{}
