//! The laws of the outcomes of flattening. Each function carries one as its contract and does
//! nothing.

ghost use Rattle.type_flatten.specs.FlatteningOutcomes.{
  EquationsAreDecided,
  FlatteningIsDecided,
  RequirementsAreOne,
};

/// The equations of a type that are read give one presentation, or the first of them with a fault
/// has one.
pub fn equations_are_decided()
    ensures { EquationsAreDecided }
{}

/// Types have one order of flattening, and by it one presentation each and one union, or one first
/// fault.
pub fn flattening_is_decided()
    ensures { FlatteningIsDecided }
{}

/// Types have one list of requirements: what the formal equations of the bases of their
/// actualisations come to.
pub fn requirements_are_one()
    ensures { RequirementsAreOne }
{}
