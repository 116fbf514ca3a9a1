//! The laws of matching and unification.

ghost use Rattle.rewriting_theory.specs.MatchingLaws.{
  CommonInstancesAreUnifiers,
  FirstStepOrNoMatch,
  FirstStepsAreUnique,
  GeneralUnifiersStayGeneral,
  MatchesAgree,
  MatchingIsDecided,
  MostGeneralUnifiersExist,
  UnificationIsDecided,
};

/// Whether a pattern matches a term is decided, and by which values of the pattern's variables.
pub fn matching_is_decided()
    ensures decided { MatchingIsDecided }
    ensures values { MatchesAgree }
{}

/// Which rule is the first that matches is decided, and what it makes of the term.
pub fn first_steps_are_decided()
    ensures decided { FirstStepOrNoMatch }
    ensures unique { FirstStepsAreUnique }
{}

/// Whether two terms have a unifier is decided, and terms that some substitution makes one have a
/// most general unifier. Two terms have a common instance, each with a substitution of its own,
/// exactly where they have a unifier with the variables of one of them renamed apart. A most
/// general unifier that keeps to the variables of its terms is one for all variables whose numbers
/// those terms do not have, too.
pub fn most_general_unifiers_exist()
    ensures decided { UnificationIsDecided }
    ensures exist { MostGeneralUnifiersExist }
    ensures apart { CommonInstancesAreUnifiers }
    ensures elsewhere { GeneralUnifiersStayGeneral }
{}
