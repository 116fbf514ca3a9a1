//! Laws of the words of what is printed. Each function carries a law as its contract and does
//! nothing.

ghost use Rattle.session_laws.specs.FlatWordLaws.{
  FlatTreesStay,
  FlatWordsAreReadAsTheSame,
  RenamedSpecificationsAreSame,
};
ghost use Rattle.session_laws.specs.WordLaws.{
  BehaviourWordsAreSentences,
  TermWordsAreSentences,
};

/// Tokens of a text that are the words of a term are a term by the grammar, and the term is written
/// as this one (ISO 8807:1989, value expressions).
pub fn term_words_are_sentences()
    ensures { TermWordsAreSentences }
{}

/// Tokens of a text that are the words of a behaviour, whose names mean in a scope what they are
/// printed for, are a behaviour by the grammar, and the behaviour is written as this one
/// (ISO 8807:1989, behaviour expressions).
pub fn behaviour_words_are_sentences()
    ensures { BehaviourWordsAreSentences }
{}

/// Tokens of a text that are the words of the flat text of a specification are a specification by
/// the grammar, which stands for the very same, but for the names of processes: where some text
/// stands for the specification, and the words of the types are types.
pub fn flat_words_are_read_as_the_same()
    ensures { FlatWordsAreReadAsTheSame }
{}

/// A tree that is flatly written is so still where its types are taken out.
pub fn flat_trees_stay()
    ensures { FlatTreesStay }
{}

/// A specification whose processes have other names is the same: so it has the same moves and
/// menus.
pub fn renamed_specifications_are_same()
    ensures { RenamedSpecificationsAreSame }
{}
