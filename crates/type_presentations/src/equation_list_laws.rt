//! The equations of a presentation, each once, found by their keys (ISO 8807:1989, data part).

ghost use Rattle.type_presentations.specs.EquationKeys.{EquationKeysTell};

/// Keys are equal exactly where equations are one: at one place, with the same sides.
pub fn equation_keys_tell()
    ensures { EquationKeysTell }
{}
