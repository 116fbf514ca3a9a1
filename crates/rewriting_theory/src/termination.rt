//! Rewriting by oriented rules ends.

ghost use Rattle.rewriting_theory.specs.Termination.{
  DescentEnds,
  RewritingByDataEnds,
  RewritingEnds,
};

/// No chain of links from a term exceeds some number, and none of links and steps into arguments
/// does, for the rules of any orientation by any precedence with any statuses (Baader and Nipkow,
/// 5.4).
pub fn rewriting_ends()
    ensures links { RewritingEnds }
    ensures links_and_arguments { DescentEnds }
    ensures by_data { RewritingByDataEnds }
{}
