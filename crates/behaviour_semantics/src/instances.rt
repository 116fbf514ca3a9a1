//! Drafts and canonical forms. Each function carries one law as its contract and does nothing.

ghost use Rattle.behaviour_semantics.specs.InstanceLaws.{DraftsAreDerivations, KeepsWhereDerives};
ghost use Rattle.behaviour_semantics.specs.EqualLeavesLaws.{EqualLeavesGiveLikeMoves};
ghost use Rattle.behaviour_semantics.specs.RunLaws.{RunsAreAlike};

/// The draft of a shape, with ground leaves that meet its conditions put in for its variables, is
/// the derivation with these leaves, and there is no other derivation of the shape.
pub fn drafts_are_derivations()
    ensures { DraftsAreDerivations }
{}

/// 'Keeps' is defined exactly where 'derives' is, with label and target alike.
pub fn keeps_where_derives()
    ensures { KeepsWhereDerives }
{}

/// Derivations lead on with canonical values exactly where they do with values as they are given,
/// to alike behaviours.
pub fn runs_are_alike()
    ensures { RunsAreAlike }
{}

/// Derivations of one shape with equal leaves give moves with equal labels and alike targets, with
/// values as they are given in the one and canonical in the other, or the same way in both.
pub fn equal_leaves_give_like_moves()
    ensures { EqualLeavesGiveLikeMoves }
{}
