//! Laws of the reading: each function's contract is a law, and its body is empty.

ghost use Rattle.tree_building.specs.ReadingLaws.{TextsHaveOneOutcome};

/// A text reads as one tree at most, has one fault at most, and has none where it reads.
pub fn texts_have_one_outcome()
    ensures { TextsHaveOneOutcome }
{}
