//! Laws of the lists of gates in a text. Each function carries a law as its contract and does
//! nothing.

ghost use Rattle.declaration_laws.specs.ReadGateLists.{GateListsStay, ReadTextsHaveGateLists};

/// In a text that was read, each list of gates of a `par` has a gate.
pub fn read_texts_have_gate_lists()
    ensures { ReadTextsHaveGateLists }
{}

/// That stays so where the types are taken out of the text.
pub fn gate_lists_stay()
    ensures { GateListsStay }
{}
