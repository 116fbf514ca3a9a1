//! Laws that tie the rows of the grammar to its definition by subject: each function's contract is
//! a law, and its body is
//! empty.

ghost use Rattle.tree_building.specs.Laws.{DerivedPartsAreSentences, DerivedTextsAreSentences, RowsBeginAsTheDefinition, RowsHaveTheSentences, SentencesAreDerived, TextsAreUnambiguous};

/// What the tokens of a text mean as a part by a derivation, they mean by the definition of the
/// grammar.
pub fn derived_parts_are_sentences()
    ensures { DerivedPartsAreSentences }
{}

/// The same of the whole texts: specifications, items, order files and lists of terms.
pub fn derived_texts_are_sentences()
    ensures { DerivedTextsAreSentences }
{}

/// What the definition of the grammar says of specifications, items, order files and lists of terms
/// has a derivation.
pub fn sentences_are_derived()
    ensures { SentencesAreDerived }
{}

/// Tokens are one specification at most, one list of items, one order file and one list of terms.
pub fn texts_are_unambiguous()
    ensures { TextsAreUnambiguous }
{}

/// The sentences of the rows are those of the definition of the grammar: tokens of some kinds are a
/// specification, items,
/// an order file or a list of terms exactly where the kinds are a sentence of the rows.
pub fn rows_have_the_sentences()
    ensures { RowsHaveTheSentences }
{}

/// What the rows can go on with is what the definition can: the kinds of some tokens are viable
/// exactly where further tokens
/// make of them a specification, items, an order file or a list of terms. So `parse` blames the
/// first token with which no
/// such text begins.
pub fn rows_begin_as_the_definition()
    ensures { RowsBeginAsTheDefinition }
{}
