//! Laws of the bytes of flat texts. Each function carries a law as its contract and does nothing.

ghost use Rattle.session_laws.specs.FlatTextLaws.{FlatTextsAreCut, GivenNamesAreWords};
ghost use Rattle.session_laws.specs.FlatTextReadings.{FlatTextsAreReadBack};
ghost use Rattle.session_laws.specs.TextExamples.{TextExamples};

/// The names that processes are given have the form of names, where the processes have such names.
pub fn given_names_are_words()
    ensures { GivenNamesAreWords }
{}

/// The flat text of data and of a specification over them, for which a text stands, is cut into its
/// words: where the lines of the types are the words of the types.
pub fn flat_texts_are_cut()
    ensures { FlatTextsAreCut }
{}

/// The flat text of data and of a specification over them, for which a text stands, is read back:
/// its tokens are a specification by the grammar, which stands for the same specification, and its
/// types come to the same data.
pub fn flat_texts_are_read_back()
    ensures { FlatTextsAreReadBack }
{}

/// Texts of behaviours and of a specification, cut into their words by computation.
pub fn text_examples_hold()
    ensures { TextExamples }
{}
