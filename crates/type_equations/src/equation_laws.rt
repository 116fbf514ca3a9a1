//! Laws of the equations that a type declares itself (ISO 8807:1989, data part).

ghost use Rattle.type_equations.specs.SideLaws.{ScopesAreNumbered, SidesMakeAnEquation};

/// Two sides that were read at one sort make an equation over their signature: its variables are
/// declared with different numbers and with sorts of the signature, and those that occur are
/// declared. The scope of an equation has variables that are numbered by their positions.
pub fn sides_make_an_equation()
    ensures equations { SidesMakeAnEquation }
    ensures scopes { ScopesAreNumbered }
{}
