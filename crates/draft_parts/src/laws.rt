//! The law of the rules on drafts. The function carries it as its contract and does nothing.

ghost use Rattle.draft_parts.specs.DraftRuleLaws.{RulesMakeTheDrafts};

/// What a rule makes of the drafts of a part are the drafts of the moves that the rule makes of the
/// moves of the part.
pub fn rules_make_the_drafts()
    ensures { RulesMakeTheDrafts }
{}
