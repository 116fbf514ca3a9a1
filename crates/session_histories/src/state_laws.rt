//! Laws of the names in a state and of its text. Each function carries a law as its contract and
//! does nothing.

ghost use Rattle.session_histories.specs.BoundNames.{MovesKeepNames};
ghost use Rattle.session_histories.specs.StateTexts.{StateTextsAreOfNames};

/// The variables that the target of a move binds have names of the behaviour that moves or of the
/// processes, whatever the derivation; so it is along any number of moves (ISO 8807:1989, dynamic
/// semantics of behaviour expressions).
pub fn moves_keep_names()
    ensures { MovesKeepNames }
{}

/// The text of a behaviour is made of printable characters and of the names in it, so that it
/// stands on one line where each of these names does.
pub fn state_texts_are_of_names()
    ensures { StateTextsAreOfNames }
{}
