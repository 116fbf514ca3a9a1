//! Laws of functionalities, recursion and books. Each function carries a law as its contract and
//! does nothing.

ghost use Rattle.spec_acceptance.specs.AcceptanceLaws.{
  BooksAreDecided,
  ExitsAreDecided,
  RanksAreDecided,
};

/// The functionalities of a specification agree, or one disagreement is the first: what the code
/// keeps with the places of the text has no say in it.
pub fn exits_are_decided()
    ensures { ExitsAreDecided }
{}

/// The recursion of a specification is guarded, or one unguarded call is the first that lies on a
/// cycle, with one cycle that is kept of it.
pub fn ranks_are_decided()
    ensures { RanksAreDecided }
{}

/// Well-formed data open by the items of an order, or one thing is the first that is wrong: of the
/// items, of an equation, of a critical pair. Two precedences that the items give orient the
/// equations alike, and the list of critical pairs is one.
pub fn books_are_decided()
    ensures { BooksAreDecided }
{}
