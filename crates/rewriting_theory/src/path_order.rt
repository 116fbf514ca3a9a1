//! The laws of the path order.

ghost use Rattle.rewriting_theory.specs.OrderLaws.{
  AtMostOneIsGreater,
  LesserVariablesOccur,
  OrderIsClosedUnderContexts,
  OrderIsClosedUnderSubstitution,
  OrderIsDecided,
  OrderIsIrreflexive,
  OrderIsToldByParts,
  OrderIsTransitive,
  PlacesTellTheOrder,
  SortedArgumentsHaveOneLength,
  TermsExceedTheirSubterms,
};

/// The path order is a strict order, so of two terms at most one is greater.
pub fn order_is_strict()
    ensures irreflexive { OrderIsIrreflexive }
    ensures transitive { OrderIsTransitive }
    ensures at_most_one { AtMostOneIsGreater }
{}

/// The order passes through contexts and substitutions, and a term is greater than its other
/// subterms.
pub fn order_is_a_simplification_order()
    ensures contexts { OrderIsClosedUnderContexts }
    ensures substitution { OrderIsClosedUnderSubstitution }
    ensures subterms { TermsExceedTheirSubterms }
{}

/// The variables of the lesser term occur in the greater one.
pub fn lesser_variables_occur()
    ensures { LesserVariablesOccur }
{}

/// A test that computes tells the order, and comes to the same test of smaller pairs of terms.
pub fn order_is_decided()
    ensures decided { OrderIsDecided }
    ensures by_parts { OrderIsToldByParts }
{}

/// The order by places is the order by recursion along the argument lists, and that the lists
/// have one length asks nothing of well-sorted terms.
pub fn places_tell_the_order()
    ensures places { PlacesTellTheOrder }
    ensures lengths { SortedArgumentsHaveOneLength }
{}
