//! Laws of the faults of types. Each function carries a law as its contract and does nothing.

ghost use Rattle.type_flatten.specs.ActualisationCauseLaws.{
  ActualisationsAreFaultyWhereCaused,
};
ghost use Rattle.type_flatten.specs.CoincidingImages.{CoincidingImagesAreDecided};
ghost use Rattle.type_flatten.specs.EquationCauseLaws.{EquationsAreFaultyWhereCaused};
ghost use Rattle.type_flatten.specs.FaultCauseLaws.{
  DeclarationsAreFaultyWhereCaused,
  PairsAreFaultyWhereCaused,
  UnionsAreFaultyWhereCaused,
};
ghost use Rattle.type_flatten.specs.FlatteningCauseLaws.{TypesAreFaultyWhereCaused};
ghost use Rattle.type_flatten.specs.NameCauseLaws.{NamesAreFaultyWhereCaused};
ghost use Rattle.type_flatten.specs.ReadingCauseLaws.{ReadingsAreRefusedWhereCaused};
ghost use Rattle.type_flatten.specs.RenamingCauseLaws.{RenamingsAreFaultyWhereCaused};

/// A union of presentations has a fault exactly where its cause stands, at the first mention that
/// brings one: two sorts of one name, two operations of one name, form and profile, or too much
/// (ISO 8807:1989, data part).
pub fn unions_are_faulty_where_caused()
    ensures { UnionsAreFaultyWhereCaused }
{}

/// The sorts and operations that a type declares have a fault exactly at the first of them that has
/// a cause.
pub fn declarations_are_faulty_where_caused()
    ensures { DeclarationsAreFaultyWhereCaused }
{}

/// The pairs of a renaming have a fault exactly at the first of them that has a cause: its old name
/// is that of nothing, or an earlier pair has it, or of sorts an earlier one has its new name.
pub fn pairs_are_faulty_where_caused()
    ensures { PairsAreFaultyWhereCaused }
{}

/// An actualisation has a fault exactly where its cause stands, and the first cause counts: a base
/// without anything formal, the actual types, the pairs, a formal sort or operation without an
/// actual one, and then what clashes, as two operations that two different pairs make one, or is
/// too much.
pub fn actualisations_are_faulty_where_caused()
    ensures { ActualisationsAreFaultyWhereCaused }
{}

/// In an actualisation two formal sorts may have one actual sort. Operations and equations of the
/// base that are alike but for such sorts become one then, and are no clash. Two operations that
/// two different pairs make one are a clash, at the pair of the later one.
pub fn coinciding_images_are_decided()
    ensures { CoincidingImagesAreDecided }
{}

/// A renaming has a fault exactly where its cause stands, and the first cause counts: its pairs,
/// and then two sorts, or two operations, of the base whose images are one.
pub fn renamings_are_faulty_where_caused()
    ensures { RenamingsAreFaultyWhereCaused }
{}

/// The names of types have a fault exactly where its cause stands, and the first cause counts: a
/// name that an earlier type has, or else a mention of no type, or else a mention that lies on a
/// cycle of mentions, each the first one in the order of the text.
pub fn names_are_faulty_where_caused()
    ensures { NamesAreFaultyWhereCaused }
{}

/// A written term, or a pair of them, is refused exactly where its cause stands, and the first
/// cause counts: a name that stands for nothing or the sort behind an `of` that is none, in the
/// order of the text, or else that there is no reading, or that there are two. Without a cause
/// there is the one reading.
pub fn readings_are_refused_where_caused()
    ensures { ReadingsAreRefusedWhereCaused }
{}

/// The equations of a type have a fault exactly where its cause stands, and the first cause counts:
/// an unknown sort in a `forall` or an `ofsort`, premisses of an own equation, a side that is
/// refused, the left one first, a premiss of a formal equation that is refused, or an equation too
/// many. Without a cause they give a presentation.
pub fn equations_are_faulty_where_caused()
    ensures { EquationsAreFaultyWhereCaused }
{}

/// A type has a fault exactly where its cause stands, and all types, in the order of flattening,
/// have that of the first type with a cause, or else that of the union of those in which nothing is
/// formal. Where their names have no fault there is an order of flattening, and without a cause
/// they have data.
pub fn types_are_faulty_where_caused()
    ensures { TypesAreFaultyWhereCaused }
{}
