//! Examples of data that are written flatly. Each function carries one as its contract and does
//! nothing.

ghost use Rattle.session_laws.specs.TypeExamples.{TypeExamples};
ghost use Rattle.session_laws.specs.WrittenExample.{ConstantDataAreWritten};

/// Data with a constant `V1` are written with the variable `v2`.
pub fn constant_data_are_written()
    ensures { ConstantDataAreWritten }
{}

/// The words of the types of some data.
pub fn type_examples_hold()
    ensures { TypeExamples }
{}
