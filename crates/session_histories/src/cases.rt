//! Worked cases. The function carries what the definitions say of them as its contract and
//! does nothing.

ghost use Rattle.session_histories.specs.LineCases.{LinesHaveNoForm, LinesSay, TextsAreCut};
ghost use Rattle.session_histories.specs.RefusalCases.{StepsAreRefused, TracesHaveTexts};
ghost use Rattle.session_histories.specs.StateCases.{
  HeadingsSay,
  StatesAreCompared,
  StatesAreKept,
  TracesHaveStates,
};

/// What some lines, traces and states come to.
pub fn worked_cases_hold()
    ensures texts_are_cut { TextsAreCut }
    ensures lines_say { LinesSay }
    ensures lines_have_no_form { LinesHaveNoForm }
    ensures steps_are_refused { StepsAreRefused }
    ensures traces_have_texts { TracesHaveTexts }
    ensures headings_say { HeadingsSay }
    ensures states_are_kept { StatesAreKept }
    ensures traces_have_states { TracesHaveStates }
    ensures states_are_compared { StatesAreCompared }
{}
