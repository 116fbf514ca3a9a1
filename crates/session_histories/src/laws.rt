//! Laws of sessions. Each function carries one law as its contract and does nothing.

ghost use Rattle.session_histories.specs.ReplayLaws.{ReplayIsExact};
ghost use Rattle.session_histories.specs.SessionLaws.{
  SessionsFollowDerivations,
  SessionsStayLawful,
};
ghost use Rattle.session_histories.specs.StepLaws.{StepsAreExact};
ghost use Rattle.session_histories.specs.TraceLaws.{TracesLeadBack};

use crate::state_laws::{moves_keep_names, state_texts_are_of_names};
use behaviour_semantics::instances::{equal_leaves_give_like_moves, runs_are_alike};
use behaviour_semantics::order::at_most_one_menu_is_exact;
use behaviour_semantics::targets::targets_are_well_formed;
use behaviour_semantics::transition::moves_are_determined;
use sort_terms::laws::reading_comes_to_one_thing;
use tree_building::reading_laws::texts_have_one_outcome;

/// A session goes where its derivations go, with canonical values and, up to alike states, by the
/// rules of the standard.
pub fn sessions_follow_derivations()
    ensures { SessionsFollowDerivations }
{
    runs_are_alike();
    targets_are_well_formed();
}

/// Steps and undo keep a session lawful, and undo behind a step leads back.
pub fn sessions_stay_lawful()
    ensures { SessionsStayLawful }
{}

/// A step is refused exactly where there is no lawful item for it, and leads to one session.
pub fn steps_are_exact()
    ensures { StepsAreExact }
{
    equal_leaves_give_like_moves();
    moves_are_determined();
    at_most_one_menu_is_exact();
}

/// A trace comes to one thing, and where it is replayed, to a lawful session.
pub fn replay_is_exact()
    ensures { ReplayIsExact }
{
    texts_have_one_outcome();
    reading_comes_to_one_thing();
    steps_are_exact();
    targets_are_well_formed();
}

/// The trace of a session, replayed from its first situation, leads to that session and to nothing
/// else, and so does that of format 1.
pub fn traces_lead_back()
    ensures { TracesLeadBack }
{
    replay_is_exact();
    moves_keep_names();
    state_texts_are_of_names();
}
