//! The law of depths: a function's contract is a law, and its body is empty.

ghost use Rattle.text_depth.specs.DepthRowLaws.{DepthsAreThoseOfTheTrees};

/// What the rows keep of a part of a text is what is kept of the tree that the part means: above
/// all its first node that is too deep.
pub fn depths_are_those_of_the_trees()
    ensures { DepthsAreThoseOfTheTrees }
{}
