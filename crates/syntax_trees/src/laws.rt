//! Laws on the grouping of flat lists: each function's contract is a law, and its body is empty.

ghost use Rattle.syntax_trees.specs.DepthExamples.{DepthExamples};
ghost use Rattle.syntax_trees.specs.GroupingLaws.{FlatListsHaveOneTree};

/// A flat list of behaviours and signs has the computed tree, and no other.
pub fn flat_lists_have_one_tree()
    ensures { FlatListsHaveOneTree }
{}

/// The depths of some small trees are as a reader counts them.
pub fn depth_examples()
    ensures { DepthExamples }
{}
