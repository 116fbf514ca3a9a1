//! The laws of the kinds of tokens.

ghost use Rattle.lotos_lexer.specs.Kinds.{
  KindsAreBelowTheCount,
  KindsAreCounted,
  KindsAreDistinct,
  ReservedWordsAreApart,
  TokensHaveKinds,
};

/// Each kind of token has a number of its own, below the count of kinds.
pub fn kinds_are_distinct()
    ensures distinct { KindsAreDistinct }
    ensures counted { KindsAreCounted }
    ensures below { KindsAreBelowTheCount }
{}

/// Each reserved word has a kind of its own, in any letter case.
pub fn reserved_words_are_apart()
    ensures { ReservedWordsAreApart }
{}

/// Each token of a text has one of the kinds.
pub fn tokens_have_kinds()
    ensures { TokensHaveKinds }
{}
