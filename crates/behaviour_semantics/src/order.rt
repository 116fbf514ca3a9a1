//! The order of shapes and exact menus. Each function carries one law as its contract and does
//! nothing.

ghost use Rattle.behaviour_semantics.specs.OrderLaws.{BeforeIsAStrictOrder, FittingShapesAreOrdered, AtMostOneMenuIsExact};

/// 'Before' is a strict order on shapes.
pub fn before_is_a_strict_order()
    ensures { BeforeIsAStrictOrder }
{}

/// Two shapes that fit one behaviour are the same, or one comes before the other.
pub fn fitting_shapes_are_ordered()
    ensures { FittingShapesAreOrdered }
{}

/// At most one list of entries is the exact menu of a behaviour.
pub fn at_most_one_menu_is_exact()
    ensures { AtMostOneMenuIsExact }
{}
