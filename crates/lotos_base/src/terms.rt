//! The laws of terms.

ghost use Rattle.lotos_base.specs.TermLaws.{
  ArgumentsAreMembers,
  ArgumentsComeBack,
  GroundMeansNoVariable,
  GroundnessIsDecided,
  HeadsGiveSorts,
  IdentityIsDecided,
  IdentityOfArgumentsIsDecided,
  ListsComeBack,
  OccurrenceIsDecided,
  SortsAreUnique,
};

/// The arguments of an operation are a list of terms.
pub fn arguments_are_lists()
    ensures there_and_back { ListsComeBack }
    ensures back_and_there { ArgumentsComeBack }
    ensures positions { ArgumentsAreMembers }
{}

/// The tests of terms answer what they are named for.
pub fn tests_decide()
    ensures identity { IdentityIsDecided }
    ensures arguments { IdentityOfArgumentsIsDecided }
    ensures groundness { GroundnessIsDecided }
    ensures occurrence { OccurrenceIsDecided }
{}

/// A term is ground exactly where no variable occurs in it.
pub fn ground_means_no_variable()
    ensures { GroundMeansNoVariable }
{}

/// A term has at most one sort, and its head tells which.
pub fn terms_have_one_sort()
    ensures unique { SortsAreUnique }
    ensures by_the_head { HeadsGiveSorts }
{}
