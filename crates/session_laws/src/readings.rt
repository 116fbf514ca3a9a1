//! The law of flat texts that are read. The function carries it as its contract and does nothing.

ghost use Rattle.session_laws.specs.FlatReadings.{FlatTextsAreReadAsTheSame};

/// Where a source text stands for a specification over data, a text whose tokens are the words of
/// the flat text of the two is a specification by the grammar. It stands for the same, and its
/// types have no fault and come to the same data, with the same spellings.
pub fn flat_texts_are_read_as_the_same()
    ensures { FlatTextsAreReadAsTheSame }
{}
