//! The laws of confluence.

ghost use Rattle.rewriting_theory.specs.ConfluenceLaws.{
  ConfluentWherePairsAgree,
  CriticalPairLemma,
  LocalConfluenceIsEnough,
  OverlapsHavePairs,
  PeaksReachBothForms,
  PeaksRewriteToBoth,
};

/// Newman's lemma: where rewriting ends, local confluence is confluence.
pub fn local_confluence_is_enough()
    ensures { LocalConfluenceIsEnough }
{}

/// The critical pair lemma, both ways, and what follows where rewriting ends.
pub fn critical_pairs_decide_confluence()
    ensures lemma { CriticalPairLemma }
    ensures forms { ConfluentWherePairsAgree }
{}

/// The peak of a critical pair rewrites to both of its sides, and to their chosen forms.
pub fn peaks_rewrite_to_both_sides()
    ensures sides { PeaksRewriteToBoth }
    ensures forms { PeaksReachBothForms }
{}

/// Each overlap of two left sides has a critical pair at its place.
pub fn overlaps_have_critical_pairs()
    ensures { OverlapsHavePairs }
{}
