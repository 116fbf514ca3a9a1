//! The laws of the measure by which a program that makes chosen forms ends.

ghost use Rattle.rewriting_theory.specs.Measure.{CostsAreMeasures, MeasuresExist};

/// The size of the derivation of a term's chosen form is smaller for each argument, and for what
/// the first rule that matches makes of the operation on the chosen forms of its arguments. So
/// where rewriting ends there is such a measure.
pub fn derivations_of_chosen_forms_shrink()
    ensures costs { CostsAreMeasures }
    ensures exist { MeasuresExist }
{}
