//! Laws of texts in pieces. Each function carries a law as its contract and does nothing.

ghost use Rattle.session_laws.specs.BehaviourTextLaws.{BehaviourTextsAreWords};
ghost use Rattle.session_laws.specs.PieceLaws.{PieceExamples, TextsInPiecesAreCut};
ghost use Rattle.session_laws.specs.TermTextLaws.{TermTextsAreWords};

/// A text of words with blanks between them, each of which is the token that begins where it
/// stands, is cut into tokens that are these words (ISO 8807:1989, lexical tokens).
pub fn texts_in_pieces_are_cut()
    ensures { TextsInPiecesAreCut }
{}

/// A small text in pieces.
pub fn piece_examples_hold()
    ensures { PieceExamples }
{}

/// The text of a term is cut into the words of the term, where its names have the form that texts
/// have (ISO 8807:1989, value expressions).
pub fn term_texts_are_words()
    ensures { TermTextsAreWords }
{}

/// The text of a behaviour is cut into the words of the behaviour, where its names mean what they
/// are printed for, and have the form that texts have (ISO 8807:1989, behaviour expressions).
pub fn behaviour_texts_are_words()
    ensures { BehaviourTextsAreWords }
{}
