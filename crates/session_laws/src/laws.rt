//! Laws of the sessions of accepted specifications, and of the traces that they save. Each function
//! carries a law as its contract and does nothing.

ghost use Rattle.session_laws.specs.AcceptedNames.{AcceptedNamesAreOfText};
ghost use Rattle.session_laws.specs.LineBounds.{LinesKeepWithin};
ghost use Rattle.session_laws.specs.OneBeginning.{SessionsBeginOnce};
ghost use Rattle.session_laws.specs.RunLines.{RunLinesAreAnswered};
ghost use Rattle.session_laws.specs.SavedTraces.{SavedTracesAreReplayed};
ghost use Rattle.session_laws.specs.VisibleEvents.{SessionsShowDeclaredGates};

use crate::state_laws::accepted_definitions_are_named;
use crate::trace_laws::traces_are_replayed;
use behaviour_semantics::transition::transitions_are_derived;
use declaration_laws::gates::{
    entries_stay_at_gates, moves_stay_at_gates, texts_have_declared_gates,
};
use lotos_top::{data_are_well_formed, lines_lead_on};
use session_histories::laws::sessions_follow_derivations;
use session_histories::state_laws::moves_keep_names;

/// Numbers of entries and values that the lines of a session give keep within what a line of a
/// trace can hold: at most ten digits, and terms nested at most 500 deep.
pub fn lines_keep_within()
    ensures { LinesKeepWithin }
{}

/// The names of an accepted specification have the form of names: those of its sorts, its
/// operations and its gates are each one whole token; and its infix operations have two arguments.
pub fn accepted_names_are_of_text()
    ensures { AcceptedNamesAreOfText }
{}

/// An accepted specification has one session to begin, however often it is run.
pub fn sessions_begin_once()
    ensures { SessionsBeginOnce }
{
    data_are_well_formed();
}

/// A run that serves a session serves that of what it accepted, and each line that was answered was
/// answered where those before it lead.
pub fn run_lines_are_answered()
    ensures { RunLinesAreAnswered }
{}

/// A trace that a line saved in a session is replayed by a line of a later session, of the same run
/// or of a later one over the same accepted specification, to the same state, menu and history.
pub fn saved_traces_are_replayed()
    ensures { SavedTracesAreReplayed }
{
    lines_keep_within();
    lines_lead_on();
    sessions_begin_once();
    accepted_names_are_of_text();
    accepted_definitions_are_named();
    moves_keep_names();
    traces_are_replayed();
}

/// In every state that a session of an accepted specification reaches, each transition and each
/// entry of the menu is the inner event, a termination, or at a gate that the specification
/// declares, and the names of these gates are distinct.
pub fn sessions_show_declared_gates()
    ensures { SessionsShowDeclaredGates }
{
    sessions_follow_derivations();
    transitions_are_derived();
    moves_stay_at_gates();
    entries_stay_at_gates();
    texts_have_declared_gates();
}
