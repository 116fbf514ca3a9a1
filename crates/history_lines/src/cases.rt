//! Worked cases. The function carries what the definitions say of them as its contract and
//! does nothing.

ghost use Rattle.history_lines.specs.AnswerCases.{
  CommandsComeTo,
  RefusalsHaveLines,
  StepsComeTo,
};

/// What some lines come to, and the lines of refusals.
pub fn worked_cases_hold()
    ensures refusals_have_lines { RefusalsHaveLines }
    ensures steps_come_to { StepsComeTo }
    ensures commands_come_to { CommandsComeTo }
{}
