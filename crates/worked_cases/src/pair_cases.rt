//! Worked cases of critical pairs, computed from the definitions.

ghost use Rattle.worked_cases.specs.PairCases.{
  ApartCases,
  CopyCases,
  MeetCases,
  OneRuleCases,
  RightStatusCases,
  SumCases,
  TwiceCases,
  TwoResultCases,
};

/// Rules that are not confluent: their first pair whose sides have different chosen forms, and the
/// two irreducible terms that its peak rewrites to.
pub fn rules_that_do_not_join()
    ensures two_results { TwoResultCases }
    ensures twice { TwiceCases }
{}

/// Rules that are confluent, with all their pairs.
pub fn rules_that_join()
    ensures sums { SumCases }
    ensures copies { CopyCases }
    ensures one_rule { OneRuleCases }
    ensures meets { MeetCases }
    ensures apart { ApartCases }
    ensures right_status { RightStatusCases }
{}
