//! Terms, labels and behaviours that are alike. The function carries one law as its contract and
//! does nothing.

ghost use Rattle.behaviour_semantics.specs.AlikeLaws.{ClosedAlikeIsEqual};

/// Ground terms and closed labels are alike exactly where they are equal.
pub fn closed_alike_is_equal()
    ensures { ClosedAlikeIsEqual }
{}
