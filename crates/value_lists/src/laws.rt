//! The laws of the order of values, and of their lists.

ghost use Rattle.value_lists.specs.ListLaws.{
  EachClassHasOneValue,
  IrreducibleTermsStay,
  LargeClassesHaveNoValue,
  ComesBeforeIsIrreflexive,
  OrderIsTotal,
  ComesBeforeIsTransitive,
  SmallerTermsComeFirst,
  ThereIsAValueList,
  ThereIsOneValueList,
};
ghost use Rattle.value_lists.specs.Tuples.{TuplesAreListedOnce};

/// The order of values is a strict one, and of two ground terms of a signature that differ one
/// comes first: the smaller one, if their sizes differ.
pub fn values_are_ordered()
    ensures irreflexive { ComesBeforeIsIrreflexive }
    ensures transitive { ComesBeforeIsTransitive }
    ensures total { OrderIsTotal }
    ensures smaller { SmallerTermsComeFirst }
{}

/// A sort has one list of its values up to a size.
pub fn sorts_have_one_value_list()
    ensures some { ThereIsAValueList }
    ensures one { ThereIsOneValueList }
{}

/// Where the rules are confluent and end, a class of equal ground terms has exactly one term in the
/// list of its sort, its normal form; or none where this is too large. The irreducible terms are
/// those that are their own normal forms.
pub fn classes_have_one_value()
    ensures one { EachClassHasOneValue }
    ensures none { LargeClassesHaveNoValue }
    ensures irreducible { IrreducibleTermsStay }
{}

/// Where no list has a term twice, no tuple comes before itself, so a list of tuples in order has
/// each once.
pub fn tuples_are_listed_once()
    ensures { TuplesAreListedOnce }
{}
