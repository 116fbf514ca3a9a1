//! The law of the numbers of declarations. The function carries it as its contract and does
//! nothing.

ghost use Rattle.declaration_laws.specs.DeclarationOrder.{DeclarationsHaveTheNextNumber};

/// The gates that a specification declares are numbered from 0 in the order of the text, and so are
/// its variables; so no two declarations of a kind have one number (ISO 8807:1989, static
/// semantics).
pub fn declarations_have_the_next_number()
    ensures { DeclarationsHaveTheNextNumber }
{}
