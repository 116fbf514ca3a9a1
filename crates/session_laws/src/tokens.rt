//! Laws of tokens. Each function carries a law as its contract and does nothing.

ghost use Rattle.session_laws.specs.LongestTokens.{TokensAreLongest};
ghost use Rattle.session_laws.specs.Cuttings.{ClosingSignsClose, TextsHaveOneCutting, TokensAreOfCuttings};

/// The token that begins at a place is the longest that fits there, and of one kind; and where none
/// begins, none fits (ISO 8807:1989, lexical tokens).
pub fn tokens_are_longest()
    ensures { TokensAreLongest }
{}

/// Blanks, comments and tokens in order make up a text, or what stands before its first fault, and
/// in one way only.
pub fn texts_have_one_cutting()
    ensures { TextsHaveOneCutting }
{}

/// What a text is cut into are the tokens of that cutting with their places, or the fault at its
/// end: the first byte with which nothing begins, or the first comment that is not closed.
pub fn tokens_are_of_cuttings()
    ensures { TokensAreOfCuttings }
{}

/// A part of a text is the sign `]|` exactly where these bytes begin and a list of gates is open.
pub fn closing_signs_close()
    ensures { ClosingSignsClose }
{}
