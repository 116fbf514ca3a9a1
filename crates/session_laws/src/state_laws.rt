//! Laws of what a session prints of its states. Each function carries a law as its contract and
//! does nothing.

ghost use Rattle.session_laws.specs.PrintedStates.{
  AcceptedDefinitionsAreNamed,
  StatesPrintOnOneLine,
};

use crate::laws::accepted_names_are_of_text;
use session_histories::laws::sessions_follow_derivations;
use session_histories::state_laws::{moves_keep_names, state_texts_are_of_names};

/// The names of an accepted specification, of its processes and of the variables that these bind
/// have the form of names: each is one whole token.
pub fn accepted_definitions_are_named()
    ensures { AcceptedDefinitionsAreNamed }
{}

/// What is printed of a state that a session of an accepted specification reaches is one line of
/// printable ASCII, whatever was done to reach it.
pub fn states_print_on_one_line()
    ensures { StatesPrintOnOneLine }
{
    accepted_names_are_of_text();
    accepted_definitions_are_named();
    sessions_follow_derivations();
    moves_keep_names();
    state_texts_are_of_names();
}
