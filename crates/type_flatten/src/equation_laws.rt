//! The law of the variables of equations. The function carries it as its contract and does nothing.

ghost use Rattle.type_flatten.specs.EquationVariables.{EquationsNumberByAppearance};

/// The sides of an equation are those that were read, with different numbers for different
/// variables, numbered from 0 by first appearance (ISO 8807:1989, data types).
pub fn equations_number_by_appearance()
    ensures { EquationsNumberByAppearance }
{}
