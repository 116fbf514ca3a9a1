//! The law on places. Each function carries a law as its contract and does nothing.

ghost use Rattle.scope_parts.specs.FirstFault.{BehavioursTellTheFirst, TextsTellTheFirst};
ghost use Rattle.scope_parts.specs.Sample.{SampleRises};

/// A behaviour whose places rise along it comes to a fault only where it has one, and then to one
/// of its faults after which none of the others comes.
pub fn behaviours_tell_the_first_fault()
    ensures { BehavioursTellTheFirst }
{}

/// The same of a text: of all its faults the one that is answered stands first, and at one place it
/// is the one that the order of the faults puts first.
pub fn texts_tell_the_first_fault()
    ensures { TextsTellTheFirst }
{}

/// The places of a text that is worked out rise along it, so that the law speaks of some text.
pub fn sample_places_rise()
    ensures { SampleRises }
{}
