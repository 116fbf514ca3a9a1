//! The laws of the list of critical pairs.

ghost use Rattle.rewriting_theory.specs.PairListLaws.{
  ConfluenceIsDecided,
  ConfluentOrUnjoined,
  EachPlaceIsListed,
  FirstUnjoinedIsUnique,
  ListedPairsDecide,
  ListsHaveTheSamePlaces,
  ListsOfPairsExist,
  NumberedPairsAreUnique,
  PairsOfPlacesAppend,
  PairsOfPlacesAreAll,
  RenamedPairsAreCritical,
  UnjoinedMeansNotConfluent,
  UnjoinedPeaksRewriteToTwo,
};

/// The list of critical pairs decides whether the rules are confluent, where rewriting ends.
pub fn listed_pairs_decide_confluence()
    ensures exactly { ListedPairsDecide }
    ensures first { ConfluentOrUnjoined }
    ensures only { FirstUnjoinedIsUnique }
{}

/// The peak of an unjoined pair rewrites to two different irreducible terms, so the rules are not
/// confluent.
pub fn unjoined_pairs_refute_confluence()
    ensures refuted { UnjoinedMeansNotConfluent }
    ensures two { UnjoinedPeaksRewriteToTwo }
{}

/// The variables of a critical pair may be renamed apart.
pub fn renamed_pairs_are_critical()
    ensures { RenamedPairsAreCritical }
{}

/// Going through all places at which left sides may overlap, and listing one critical pair for each
/// place where they do, gives the list of all critical pairs, in order.
pub fn pairs_of_places_are_all_pairs()
    ensures listed { EachPlaceIsListed }
    ensures all { PairsOfPlacesAreAll }
    ensures append { PairsOfPlacesAppend }
{}

/// Two lists of the critical pairs of some rules go through the same places, and two pairs at one
/// place with sorted peaks and numbered variables are one pair. So there is only one such list.
pub fn the_list_of_pairs_is_unique()
    ensures places { ListsHaveTheSamePlaces }
    ensures pairs { NumberedPairsAreUnique }
{}

/// Each set of rules has a list of its critical pairs, so where rewriting ends it is decided
/// whether the rules are confluent.
pub fn confluence_is_decided()
    ensures listed { ListsOfPairsExist }
    ensures decided { ConfluenceIsDecided }
{}
