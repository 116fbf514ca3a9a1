//! The laws of lists of drafts. Each function carries its law as its contract and does nothing.

ghost use Rattle.draft_parts.specs.ListLaws.{BothListsAreTheDrafts, RuleListsAreTheDrafts};

/// What a rule makes of the drafts of the moves of a part are the drafts of the moves that it
/// makes.
pub fn rule_lists_are_the_drafts()
    ensures { RuleListsAreTheDrafts }
{}

/// What both sides make of their drafts are the drafts of the moves that they make together, where
/// the moves of the right side with higher leaves are those with the variables raised.
pub fn both_lists_are_the_drafts()
    ensures { BothListsAreTheDrafts }
{}
