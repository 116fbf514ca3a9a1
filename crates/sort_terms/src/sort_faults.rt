//! Why a written term has no one meaning over a signature.

ghost use Rattle.std.specs.Prelude.{◌≡◌};

use lotos_base::{NoMemory, Place};
use std::alloc::{AllocError, AllocFailed};

/// Why a written term was refused.
#[derive(Clone, Copy, Debug, PartialEq, Eq)]
pub enum SortFault {
    /// No variable in scope and no operation has the name and form that stand at the place.
    UnknownName {
        /// The place of the name.
        place: Place,
    },
    /// The name behind an `of` is that of no sort.
    UnknownSort {
        /// The place of the sort's name.
        place: Place,
    },
    /// The term has no reading.
    NoReading {
        /// The place of the term.
        place: Place,
    },
    /// The term has two readings or more.
    TwoReadings {
        /// The place of the term.
        place: Place,
    },
    /// Memory was wanted and not there.
    NoMemory,
}

impl From<NoMemory> for SortFault {
    ghost use Rattle.sort_terms.specs.declared.sort_faults.SortFault.TheVariants.{
      NoMemory as out_of_memory,
    };

    ghost from_gives = { λ _ fault. fault ≡ out_of_memory };

    fn from(_fault: NoMemory) -> SortFault {
        SortFault::NoMemory
    }
}

impl From<AllocError> for SortFault {
    ghost use Rattle.sort_terms.specs.declared.sort_faults.SortFault.TheVariants.{
      NoMemory as out_of_memory,
    };

    ghost from_gives = { λ _ fault. fault ≡ out_of_memory };

    fn from(_fault: AllocError) -> SortFault {
        SortFault::NoMemory
    }
}

impl<T: Drop> From<AllocFailed<T>> for SortFault {
    ghost use Rattle.sort_terms.specs.declared.sort_faults.SortFault.TheVariants.{
      NoMemory as out_of_memory,
    };

    ghost from_gives = { λ _ fault. fault ≡ out_of_memory };

    fn from(_fault: AllocFailed<T>) -> SortFault {
        SortFault::NoMemory
    }
}
