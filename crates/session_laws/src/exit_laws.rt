//! The law of how sessions end. The function carries it as its contract and does nothing.

ghost use Rattle.session_laws.specs.EndingSessions.{SessionsEndAsDeclared};

use crate::functionalities::{exits_have_their_sorts, no_disagreement_is_agreement};
use behaviour_semantics::transition::transitions_are_derived;
use lotos_top::start_values_are_ground;
use session_histories::laws::sessions_follow_derivations;

/// In every state that a session of an accepted specification reaches, each termination has values
/// of the sorts that the specification declares behind `exit`, and where it declares `noexit` there
/// is none.
pub fn sessions_end_as_declared()
    ensures { SessionsEndAsDeclared }
{
    no_disagreement_is_agreement();
    exits_have_their_sorts();
    start_values_are_ground();
    sessions_follow_derivations();
    transitions_are_derived();
}
