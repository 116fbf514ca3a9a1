//! The laws of the drafts of actions and of `exit`. Each function carries its law as its contract
//! and does nothing.

ghost use Rattle.draft_parts.specs.OpenLaws.{ActionsHaveTheirDrafts, ExitsHaveTheirDrafts};

/// The draft of an action is that of its move.
pub fn actions_have_their_drafts()
    ensures { ActionsHaveTheirDrafts }
{}

/// The draft of an `exit` is that of its move.
pub fn exits_have_their_drafts()
    ensures { ExitsHaveTheirDrafts }
{}
