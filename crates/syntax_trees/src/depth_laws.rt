//! Laws of first nodes: each function's contract is a law, and its body is empty.

ghost use Rattle.syntax_trees.specs.DepthLaws.{FirstsAreGrouped, FirstsTellTheFirstTooDeep};

/// The first nodes of a term or a behaviour tell its first node that is deeper than the limit.
pub fn firsts_tell_the_first_too_deep()
    ensures { FirstsTellTheFirstTooDeep }
{}

/// The first nodes of a flat list of behaviours are those of its operands, grouped.
pub fn firsts_are_grouped()
    ensures { FirstsAreGrouped }
{}
