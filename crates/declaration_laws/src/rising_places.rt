//! Laws of the places in a text. Each function carries a law as its contract and does nothing.

ghost use Rattle.declaration_laws.specs.ReadPlaces.{PlacesStay, ReadTextsRise};

/// In a text that was read, the places rise along it.
pub fn read_texts_rise()
    ensures { ReadTextsRise }
{}

/// They do so still where the types are taken out of the text.
pub fn places_stay()
    ensures { PlacesStay }
{}
