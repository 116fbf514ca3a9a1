//! The laws of orientation.

ghost use Rattle.rewriting_theory.specs.OrientationLaws.{
  DataAreOrientedOrNot,
  FirstUnorientableIsUnique,
  OrientationsAreUnique,
  OrientedDataAreOrientable,
  OrientedRulesAreWellFormed,
  RulesJoin,
  RulesKnowTheirEquations,
  RulesOfDataAreOriented,
};

/// Data have one list of rules, or a first equation that cannot be oriented, and never both.
pub fn data_are_oriented_or_not()
    ensures unique { OrientationsAreUnique }
    ensures either { DataAreOrientedOrNot }
    ensures not_both { OrientedDataAreOrientable }
    ensures first { FirstUnorientableIsUnique }
    ensures joined { RulesJoin }
{}

/// The rules of data are their equations, each turned toward its smaller side, with their numbers.
pub fn rules_of_data_are_oriented()
    ensures rules { RulesOfDataAreOriented }
    ensures numbers { RulesKnowTheirEquations }
    ensures well_formed { OrientedRulesAreWellFormed }
{}
