//! The laws of lines that ask for lists.

ghost use Rattle.value_lists.specs.ListLineLaws.{InstancesHaveOneAnswer, ValuesHaveOneAnswer};

/// A line that asks for values or for instances comes to one thing at most.
pub fn lists_have_one_answer()
    ensures values { ValuesHaveOneAnswer }
    ensures instances { InstancesHaveOneAnswer }
{}
