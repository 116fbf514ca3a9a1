//! Laws of outcomes. Each function carries one law as its contract and does nothing.

ghost use Rattle.history_lines.specs.OutcomeLaws.{LinesComeToOneThing, SessionsHaveOneReport};

use session_log::{
    questions_have_one_answer, replay_is_exact, sessions_follow_derivations, sessions_stay_lawful,
    steps_are_exact, texts_have_one_outcome,
};
use sort_terms::laws::reading_comes_to_one_thing;
use value_lists::line_laws::lists_have_one_answer;

/// A line comes to one thing at most where the shelf tells its texts and counts no fault; where it
/// counts one, one thing is printed, and nothing is changed but the shelf.
pub fn lines_come_to_one_thing()
    ensures { LinesComeToOneThing }
{
    sessions_follow_derivations();
    sessions_stay_lawful();
    steps_are_exact();
    replay_is_exact();
    texts_have_one_outcome();
    reading_comes_to_one_thing();
    questions_have_one_answer();
    lists_have_one_answer();
}

/// Over a shelf that tells its texts and counts no fault, a session has one report for the lines of
/// a text, and stands in one state behind them.
pub fn sessions_have_one_report()
    ensures { SessionsHaveOneReport }
{
    lines_come_to_one_thing();
}
