//! Lists of moves, of drafts and of entries. Each function carries one law as its contract and does
//! nothing.

ghost use Rattle.behaviour_semantics.specs.ListingLaws.{ListedMovesAreTheMoves, ListedDraftsAreTheDrafts, SolvedListsAreExact, GuardedListsEnd, GuardedBehavioursHaveAMenu};

/// The moves listed by the form of a behaviour are those of the table, in the order of shapes.
pub fn listed_moves_are_the_moves()
    ensures { ListedMovesAreTheMoves }
{}

/// The listed drafts are those of the shapes that fit, in the order of shapes.
pub fn listed_drafts_are_the_drafts()
    ensures { ListedDraftsAreTheDrafts }
{}

/// The listed drafts, solved one by one, are the exact menu.
pub fn solved_lists_are_exact()
    ensures { SolvedListsAreExact }
{}

/// Where the recursion of the processes is guarded, the moves of each behaviour can be listed.
pub fn guarded_lists_end()
    ensures { GuardedListsEnd }
{}

/// Where the recursion of the processes is guarded, each closed behaviour has an exact menu.
pub fn guarded_behaviours_have_a_menu()
    ensures { GuardedBehavioursHaveAMenu }
{}
