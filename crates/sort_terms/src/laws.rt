//! Laws of terms and readings. Each function carries laws as its contract and does nothing.

ghost use Rattle.sort_terms.specs.ProfiledTermLaws.{
  FittingTermsAreWellSorted,
  ProfilesAreDetermined,
};
ghost use Rattle.sort_terms.specs.ReadingLaws.{
  PairReadingComesToOneThing,
  ReadingComesToOneThing,
  ReadingsAreWellSorted,
};

/// Over a signature that they are of, terms with profiles are the well-sorted terms.
pub fn terms_with_profiles_are_well_sorted()
    ensures sorts { FittingTermsAreWellSorted }
    ensures determined { ProfilesAreDetermined }
{}

/// Readings are well-sorted terms.
pub fn readings_are_well_sorted()
    ensures { ReadingsAreWellSorted }
{}

/// Reading comes to one answer or one refusal at most.
pub fn reading_comes_to_one_thing()
    ensures terms { ReadingComesToOneThing }
    ensures pairs { PairReadingComesToOneThing }
{}
