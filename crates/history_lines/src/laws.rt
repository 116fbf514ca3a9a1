//! Laws of whole sessions. Each function carries one law as its contract and does nothing.

ghost use Rattle.history_lines.specs.ReportLaws.{LinesLeadOn, ServedLinesAreAnswered};

use session_log::{sessions_follow_derivations, sessions_stay_lawful};

/// Each line leads from a state that is reached to one that is reached.
pub fn lines_lead_on()
    ensures { LinesLeadOn }
{
    sessions_follow_derivations();
    sessions_stay_lawful();
}

/// The lines that a server of sessions answers are answered one after another by what they come to.
pub fn served_lines_are_answered()
    ensures { ServedLinesAreAnswered }
{
    lines_lead_on();
}
