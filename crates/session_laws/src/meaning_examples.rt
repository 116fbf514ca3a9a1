//! Worked cases. The function carries them as its contract and does nothing.

ghost use Rattle.session_laws.specs.MeaningExamples.{MeaningExamples};

/// Names that mean what they are printed for and names that do not, what a small behaviour is
/// written as, and names of processes that are apart.
pub fn meaning_examples_hold()
    ensures { MeaningExamples }
{}
