//! Which of two faults stands first in the text.

ghost use Rattle.lotos_base.specs.WrittenView.{text_place_of};
ghost use Rattle.scope_parts.specs.FaultView.{
  IsBeforePlace,
  IsBeside,
  IsToldBefore,
  term_told,
};
ghost use Rattle.scope_parts.specs.ScopeFault.{stands_before};
ghost use Rattle.std.specs.Prelude.{◌≡◌};

use crate::scope_faults::ScopeFault;
use lotos_base::Place;
use sort_terms::SortFault;
use syntax_trees::Named;

/// An answer for a list of declarations, beside a double name in it: of the two faults the one that
/// stands first in the text counts, the double name where both stand at one place.
pub fn beside<T: Drop>(
    double: Option<Named>,
    others: Result<T, ScopeFault>,
) -> Result<T, ScopeFault>
    ensures { IsBeside double others result }
{
    let Some((place, name)) = double else {
        return others;
    };
    match others {
        Ok(_) => Err(ScopeFault::DoubleName { place, name }),
        Err(fault) => {
            if is_before(&fault, &place) {
                Err(fault)
            } else {
                Err(ScopeFault::DoubleName { place, name })
            }
        }
    }
}

// Whether the fault stands before the place. Want of memory counts as before all places.
fn is_before(fault: &ScopeFault, place: &Place) -> bool
    ensures { IsBeforePlace result fault.now place.now }
{
    match fault {
        ScopeFault::UnknownGate { place: at, .. } => place_before(at, place),
        ScopeFault::UnknownProcess { place: at, .. } => place_before(at, place),
        ScopeFault::UnknownSort { place: at, .. } => place_before(at, place),
        ScopeFault::DoubleName { place: at, .. } => place_before(at, place),
        ScopeFault::GateCount { place: at, .. } => place_before(at, place),
        ScopeFault::ValueCount { place: at, .. } => place_before(at, place),
        ScopeFault::NoBool { place: at } => place_before(at, place),
        ScopeFault::Term(refused) => is_refused_before(refused, place),
        ScopeFault::NoMemory => true,
    }
}

// Whether a term was refused before the place.
fn is_refused_before(refused: &SortFault, place: &Place) -> bool
    ensures { IsToldBefore result (term_told refused.now) place.now }
{
    match refused {
        SortFault::UnknownName { place: at } => place_before(at, place),
        SortFault::UnknownSort { place: at } => place_before(at, place),
        SortFault::NoReading { place: at } => place_before(at, place),
        SortFault::TwoReadings { place: at } => place_before(at, place),
        SortFault::NoMemory => true,
    }
}

// Whether one place stands before another.
fn place_before(one: &Place, other: &Place) -> bool
    ensures { result ≡ stands_before (text_place_of one.now) (text_place_of other.now) }
{
    if one.text != other.text {
        return one.text < other.text;
    }
    if one.line != other.line {
        return one.line < other.line;
    }
    one.col < other.col
}
