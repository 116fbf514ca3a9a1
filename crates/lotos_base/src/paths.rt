//! The laws of paths.

ghost use Rattle.lotos_base.specs.PathLaws.{
  LaterReplacementCounts,
  ParallelPartsStay,
  PuttingBackChangesNothing,
  ReplacedPartIsThere,
  ReplacementIsPossible,
  ReplacementKeepsSorts,
  PathReplacementsCompose,
  SubtermsCompose,
  SubtermsHaveSorts,
};

/// Subterm and replacement undo each other.
pub fn subterm_and_replacement_undo_each_other()
    ensures found { ReplacedPartIsThere }
    ensures put_back { PuttingBackChangesNothing }
    ensures twice { LaterReplacementCounts }
    ensures possible { ReplacementIsPossible }
{}

/// A replacement leaves what does not stand at its path.
pub fn replacement_leaves_all_else()
    ensures { ParallelPartsStay }
{}

/// A path after a path names a subterm of a subterm.
pub fn paths_compose()
    ensures subterms { SubtermsCompose }
    ensures replacements { PathReplacementsCompose }
{}

/// A replacement by a term of the same sort keeps the sort of the whole.
pub fn replacement_keeps_sorts()
    ensures parts { SubtermsHaveSorts }
    ensures whole { ReplacementKeepsSorts }
{}
