//! Worked cases on values.

ghost use Rattle.worked_cases.specs.ValueCases.{LeavesStandInOrder, ParametersGetTheirValues, LetBindsTogether, BoundValuesAreCanonical, ValuesOfLabelsStay, AlikeBehavioursHaveEqualTerms};

/// The leaves of a derivation stand in preorder, as many as are wanted.
pub fn leaves_stand_in_order()
    ensures { LeavesStandInOrder }
{}

/// A called process has the values of the call.
pub fn parameters_get_their_values()
    ensures { ParametersGetTheirValues }
{}

/// The variables of one `let` get their values together.
pub fn let_binds_together()
    ensures { LetBindsTogether }
{}

/// Bound values and the values of labels are kept in canonical form.
pub fn bound_values_are_canonical()
    ensures { BoundValuesAreCanonical }
{}

/// The values of labels stay under `hide` and under a relabelling.
pub fn values_of_labels_stay()
    ensures { ValuesOfLabelsStay }
{}

/// Behaviours are alike where only equal terms differ.
pub fn alike_behaviours_have_equal_terms()
    ensures { AlikeBehavioursHaveEqualTerms }
{}
