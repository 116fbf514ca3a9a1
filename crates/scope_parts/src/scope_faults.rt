//! What breaks a rule on names, counts, `Bool` or terms.

ghost use Rattle.std.specs.Prelude.{◌≡◌};

use lotos_base::{Name, NoMemory, Place};
use sort_terms::SortFault;
use std::alloc::{AllocError, AllocFailed};

/// Why the definitions and behaviours of a text were refused. Names are as spelled at the place.
#[derive(Debug, Drop)]
pub enum ScopeFault {
    /// No visible gate has the name.
    UnknownGate {
        /// The place of the name.
        place: Place,
        /// The name.
        name: Name,
    },
    /// No visible process has the name.
    UnknownProcess {
        /// The place of the name.
        place: Place,
        /// The name.
        name: Name,
    },
    /// The data have no sort of the name.
    UnknownSort {
        /// The place of the name.
        place: Place,
        /// The name.
        name: Name,
    },
    /// The name was declared before in the same list, or in the same `where`.
    DoubleName {
        /// The place of the second declaration.
        place: Place,
        /// The name.
        name: Name,
    },
    /// A call gives another number of gates than its process has.
    GateCount {
        /// The place of the call.
        place: Place,
        /// How many gates the process has.
        wanted: u32,
        /// How many the call gives.
        given: u32,
    },
    /// A call gives another number of values than its process has parameters.
    ValueCount {
        /// The place of the call.
        place: Place,
        /// How many parameters the process has.
        wanted: u32,
        /// How many values the call gives.
        given: u32,
    },
    /// A premiss of one term, where the data have no sort `Bool` with a constant `true`.
    NoBool {
        /// The place of the premiss.
        place: Place,
    },
    /// A term was refused. Want of memory does not stand here.
    Term(SortFault),
    /// Memory was wanted and not there.
    NoMemory,
}

impl From<NoMemory> for ScopeFault {
    ghost use Rattle.scope_parts.specs.declared.scope_faults.ScopeFault.TheVariants.{
      NoMemory as out_of_memory,
    };

    ghost from_gives = { λ _ fault. fault ≡ out_of_memory };

    fn from(_fault: NoMemory) -> ScopeFault {
        ScopeFault::NoMemory
    }
}

impl From<AllocError> for ScopeFault {
    ghost use Rattle.scope_parts.specs.declared.scope_faults.ScopeFault.TheVariants.{
      NoMemory as out_of_memory,
    };

    ghost from_gives = { λ _ fault. fault ≡ out_of_memory };

    fn from(_fault: AllocError) -> ScopeFault {
        ScopeFault::NoMemory
    }
}

impl<T: Drop> From<AllocFailed<T>> for ScopeFault {
    ghost use Rattle.scope_parts.specs.declared.scope_faults.ScopeFault.TheVariants.{
      NoMemory as out_of_memory,
    };

    ghost from_gives = { λ _ fault. fault ≡ out_of_memory };

    fn from(_fault: AllocFailed<T>) -> ScopeFault {
        ScopeFault::NoMemory
    }
}

impl From<SortFault> for ScopeFault {
    ghost use Rattle.scope_parts.specs.FaultView.{fault_of_term};

    ghost from_gives = { λ refused fault. fault ≡ fault_of_term refused };

    fn from(refused: SortFault) -> ScopeFault {
        match refused {
            SortFault::UnknownName { place } => ScopeFault::Term(SortFault::UnknownName { place }),
            SortFault::UnknownSort { place } => ScopeFault::Term(SortFault::UnknownSort { place }),
            SortFault::NoReading { place } => ScopeFault::Term(SortFault::NoReading { place }),
            SortFault::TwoReadings { place } => ScopeFault::Term(SortFault::TwoReadings { place }),
            SortFault::NoMemory => ScopeFault::NoMemory,
        }
    }
}
