//! Worked cases. Each function carries what the definitions say as its contract and does nothing.

ghost use Rattle.value_lists.specs.ListCases.{ListsArePrinted};

/// What is printed.
pub fn lists_are_printed()
    ensures { ListsArePrinted }
{}
