//! The law of the labels that a session shows. The function carries it as its contract and does
//! nothing.

ghost use Rattle.session_laws.specs.ReadableLabels.{SessionsShowReadableLabels};

use crate::labels::menus_are_read_back;
use crate::laws::accepted_names_are_of_text;
use declaration_laws::gates::{moves_stay_at_gates, texts_have_declared_gates};
use lotos_top::data_are_well_formed;
use session_histories::laws::sessions_follow_derivations;

/// In every state that a session of an accepted specification reaches, what the menu shows as a
/// label without variables is read as this label, so that two different ones never print alike.
pub fn sessions_show_readable_labels()
    ensures { SessionsShowReadableLabels }
{
    accepted_names_are_of_text();
    data_are_well_formed();
    sessions_follow_derivations();
    moves_stay_at_gates();
    texts_have_declared_gates();
    menus_are_read_back();
}
