//! The laws of rewriting.

ghost use Rattle.rewriting_theory.specs.RewritingLaws.{LinksAreSteps, ReachedByChains};

/// One term rewrites to another one exactly where there is a chain of some length.
pub fn chains_have_lengths()
    ensures { ReachedByChains }
{}

/// A link at a path is a step at the root of a subterm, and the other way round.
pub fn links_are_steps()
    ensures { LinksAreSteps }
{}
