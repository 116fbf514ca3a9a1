//! Worked cases on what is asked and on solving.

ghost use Rattle.worked_cases.specs.SolvingCases.{SidesAndGuardsStandInOrder, EachConditionIsTried};

/// What is asked stands in order, and sides keep their places.
pub fn sides_and_guards_stand_in_order()
    ensures { SidesAndGuardsStandInOrder }
{}

/// A condition is tried wherever it stands.
pub fn each_condition_is_tried()
    ensures { EachConditionIsTried }
{}
