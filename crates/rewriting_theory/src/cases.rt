//! Worked cases, which show that the definitions say what a textbook says.

ghost use Rattle.rewriting_theory.specs.CanonCases.{AdditionCanonCases};
ghost use Rattle.rewriting_theory.specs.OrderCases.{
  ArgumentCases,
  LeftCases,
  RankCases,
  RightCases,
  VariableCases,
};
ghost use Rattle.rewriting_theory.specs.OrientationCases.{
  AdditionCases,
  CommutativeCases,
  CopiedCases,
  DescentCases,
  GroupCases,
  RankedCases,
  StatusCases,
};

/// The four cases of the path order, each both ways.
pub fn order_cases()
    ensures variables { VariableCases }
    ensures arguments { ArgumentCases }
    ensures ranks { RankCases }
    ensures from_the_left { LeftCases }
    ensures from_the_right { RightCases }
{}

/// What small data are oriented to, and chosen forms of their terms: a commutative operation, sums
/// grouped by either status, copied operations, an order that puts an operation above the others,
/// an equation that only one status orients, the addition of natural numbers, and steps into
/// arguments.
pub fn orientation_cases()
    ensures commutative { CommutativeCases }
    ensures groups { GroupCases }
    ensures copies { CopiedCases }
    ensures ranks { RankedCases }
    ensures statuses { StatusCases }
    ensures addition { AdditionCases }
    ensures descents { DescentCases }
{}

/// The addition of natural numbers has rules that end and do not overlap, so it has a canon.
pub fn canon_cases()
    ensures { AdditionCanonCases }
{}
