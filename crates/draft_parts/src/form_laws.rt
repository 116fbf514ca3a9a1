//! The laws. Each function carries its law as its contract and does nothing.

ghost use Rattle.draft_parts.specs.BelowLaws.{BelowEnvironments};
ghost use Rattle.draft_parts.specs.EnvironmentRaises.{EnvironmentsRaise};
ghost use Rattle.draft_parts.specs.FormLaws.{FormsHaveTheirDrafts};
ghost use Rattle.draft_parts.specs.RowLaws.{RowsHaveTheirDrafts};
ghost use Rattle.draft_parts.specs.ScopeLaws.{PutPartsAreInScope};

/// The drafts of the moves of a behaviour are made of those of its parts, form by form.
pub fn forms_have_their_drafts()
    ensures { FormsHaveTheirDrafts }
{}

/// Below an environment over leaves the moves with higher leaves are the moves with the variables
/// raised.
pub fn environments_raise()
    ensures { EnvironmentsRaise }
{}

/// What is below an environment, part by part, and the drafts of binders there.
pub fn below_environments()
    ensures { BelowEnvironments }
{}

/// The drafts of a gate `par` are those of its copies side by side.
pub fn rows_have_their_drafts()
    ensures { RowsHaveTheirDrafts }
{}

/// What is well formed once terms are put in is well formed in the scope of what got them.
pub fn put_parts_are_in_scope()
    ensures { PutPartsAreInScope }
{}
