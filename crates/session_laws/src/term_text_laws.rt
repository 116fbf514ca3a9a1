//! Laws of the texts of ground terms. Each function carries a law as its contract and does nothing.

ghost use Rattle.session_laws.specs.ReadBackLaws.{
  TermListsAreReadBack,
  TermTextsAreReadBack,
  TextNamesArePlain,
};
ghost use Rattle.session_laws.specs.SampleTexts.{SampleTextsAreReadBack};

/// The text of a ground term is read by the grammar of terms, and has one reading, this term: where
/// the names have the form that texts have, infix operations have two arguments, and the term is
/// nested at most 500 deep (ISO 8807:1989, value expressions).
pub fn term_texts_are_read_back()
    ensures { TermTextsAreReadBack }
{}

/// The texts of ground terms between commas are read as a list of terms, which are these terms.
pub fn term_lists_are_read_back()
    ensures { TermListsAreReadBack }
{}

/// A name of this form has no blank in it and is not `=>`.
pub fn text_names_are_plain()
    ensures { TextNamesArePlain }
{}

/// Sample data with names of each form and with twins are such data, and some of their texts are
/// read back.
pub fn sample_texts_are_read_back()
    ensures { SampleTextsAreReadBack }
{}
