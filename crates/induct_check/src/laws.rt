//! Laws of the reading of certificates. Each function carries one as its contract and does nothing.

ghost use Rattle.induct_check.specs.AlignedCases.{WhatIsLeftStaysAligned};

/// What a reader keeps of what is left is what is left, along all lines of a text: the patterns that
/// the lines of a tree lead to, and names and sorts of the variables of each case that the lines of
/// a proof lead to.
#[tactic(auto, using(crate::proofs::AlignedLemmas::what_is_left_stays_aligned))]
pub fn what_is_left_stays_aligned()
    ensures { WhatIsLeftStaysAligned }
{}
