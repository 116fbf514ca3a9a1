//! Laws of the gates of events. Each function carries a law as its contract and does nothing.

ghost use Rattle.declaration_laws.specs.DeclaredGates.{TextsHaveDeclaredGates};
ghost use Rattle.declaration_laws.specs.EntryGates.{EntriesStayAtGates};
ghost use Rattle.declaration_laws.specs.VisibleGates.{MovesStayAtGates};

/// A move of a behaviour that uses some gates alone is the inner event, a termination, or at one of
/// them, and leads to such a behaviour (ISO 8807:1989, dynamic semantics of behaviour expressions).
pub fn moves_stay_at_gates()
    ensures { MovesStayAtGates }
{}

/// Each entry of the menu of such a behaviour is the inner event, a termination, or at one of these
/// gates, whether values meet its conditions or not.
pub fn entries_stay_at_gates()
    ensures { EntriesStayAtGates }
{}

/// What a text stands for uses the gates that it declares, whose names are distinct, and each
/// process in it its formal gates (ISO 8807:1989, static semantics).
pub fn texts_have_declared_gates()
    ensures { TextsHaveDeclaredGates }
{}
