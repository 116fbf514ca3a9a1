//! Laws of questions. Each function carries a law as its contract and does nothing.

ghost use Rattle.session_lines.specs.AnswerLaws.{QuestionsHaveOneAnswer};

/// A question comes to one answer at most.
pub fn questions_have_one_answer()
    ensures { QuestionsHaveOneAnswer }
{}
