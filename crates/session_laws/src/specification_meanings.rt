//! Laws of specifications that are written flatly. Each function carries one as its contract and
//! does nothing.

ghost use Rattle.session_laws.specs.DepthLaws.{FlatTextsAreNoDeeper};
ghost use Rattle.session_laws.specs.FlatLaws.{FlatTextsStandForTheSame};

/// A text with the processes of a specification in one `where`, each under a name of its own,
/// stands for this specification with these names: where the specification is what some text stands
/// for, and each name in it is written as it is printed (ISO 8807:1989, static semantics).
pub fn flat_texts_stand_for_the_same()
    ensures { FlatTextsStandForTheSame }
{}

/// Where no node of a text is deeper than a limit, none of a text is so that what it stands for is
/// written as flatly: for the behaviours and all terms in them.
pub fn flat_texts_are_no_deeper()
    ensures { FlatTextsAreNoDeeper }
{}
