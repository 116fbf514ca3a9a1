//! Solving. Each function carries one law as its contract and does nothing.

ghost use Rattle.behaviour_semantics.specs.DraftOrderLaws.{AnyValuesWillDo, SolvingNamesNoBehaviour};
ghost use Rattle.behaviour_semantics.specs.JoinLaws.{SidesMayBeSolvedBefore};
ghost use Rattle.behaviour_semantics.specs.SolvingLaws.{EntriesAreSolved, OutcomesAreDetermined};

/// A draft has one outcome at most.
pub fn outcomes_are_determined()
    ensures { OutcomesAreDetermined }
{}

/// The entry of a shape's draft has canonical terms, open conditions, and variables at leaves of
/// their own, in order.
pub fn entries_are_solved()
    ensures { EntriesAreSolved }
{}

/// Solving any draft in order has one outcome, loses no values and adds none, and leaves an entry
/// in order.
pub fn solving_names_no_behaviour()
    ensures { SolvingNamesNoBehaviour }
{}

/// Ground leaves meet a draft exactly where some values of its variables make its leaves equal to
/// them.
pub fn any_values_will_do()
    ensures { AnyValuesWillDo }
{}

/// The join of two solved sides has the outcome of the join of the two drafts, and none where a
/// side has none.
pub fn sides_may_be_solved_before()
    ensures { SidesMayBeSolvedBefore }
{}
