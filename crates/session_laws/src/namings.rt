//! The law of the naming of flat texts. The function carries it as its contract and does nothing.

ghost use Rattle.session_laws.specs.FlatNamings.{FlatTextsHaveFlatNamings};

/// The naming by which a flat text is written knows the gates of its specification, leaves out the
/// right sides that are `true`, and calls no two processes by one name.
pub fn flat_texts_have_flat_namings()
    ensures { FlatTextsHaveFlatNamings }
{}
