//! Laws of texts that stand for the same as an accepted specification, and of what flattening
//! prints. Each function carries one as its contract and does nothing.

ghost use Rattle.session_laws.specs.AlikeLaws.{
  TextsReadBackAreAccepted,
  WhatIsFoundedAlikeRunsAlike,
};
ghost use Rattle.session_laws.specs.FlatRuns.{FlatTextsRunAlike, FlattenedTextsStandForTheSame};

use crate::data_laws::flattened_data_are_of_text;
use crate::functionalities::no_disagreement_is_agreement;
use crate::laws::sessions_begin_once;
use crate::texts::flat_texts_are_read_back;

/// The flat text of an accepted specification, if it has no more bytes than texts may have, is read
/// as a specification whose types have the same data, spelled alike, and which stands for the same
/// specification but for the names of processes.
pub fn flattened_texts_stand_for_the_same()
    ensures { FlattenedTextsStandForTheSame }
{
    flattened_data_are_of_text();
    flat_texts_are_read_back();
}

/// Where a text stands for data and a specification that are the same as those of an accepted one,
/// spelled alike, whatever comes of it with the same order file is an acceptance that is alike.
pub fn texts_read_back_are_accepted()
    ensures { TextsReadBackAreAccepted }
{
    no_disagreement_is_agreement();
}

/// Of two specifications that are accepted alike up to the book of their data, each list of words
/// gives both the same start values or gives neither any; `check` prints the same report of both;
/// and their sessions begin with the same menu and go on with the same steps, labels and menus.
pub fn what_is_founded_alike_runs_alike()
    ensures { WhatIsFoundedAlikeRunsAlike }
{}

/// What a run prints that flattens a specification is its flat text; and where this has no more
/// bytes than texts may have, and stands on a shelf, it is accepted there with the same order file,
/// with the same start values, `check` prints the same report, and sessions begin alike: the same
/// steps are lawful in them, with the same menus and labels.
pub fn flat_texts_run_alike()
    ensures { FlatTextsRunAlike }
{
    no_disagreement_is_agreement();
    sessions_begin_once();
    flattened_texts_stand_for_the_same();
}
