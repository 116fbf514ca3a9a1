//! Why the types of a text are refused.

ghost use Rattle.std.specs.Prelude.{◌≡◌};

use crate::TypeNameFault;
use lotos_base::{Name, Place};
use sort_terms::SortFault;
use std::alloc::{AllocError, AllocFailed};

/// Why the types of a text were refused. Names are as spelled at the place.
#[derive(Debug, Drop)]
pub enum TypeFault {
    /// An earlier type has the name of the type at the place.
    DoubleType {
        /// The place of the second declaration.
        place: Place,
        /// The name.
        name: Name,
    },
    /// No type has the name that is mentioned at the place.
    UnknownType {
        /// The place of the mention.
        place: Place,
        /// The name.
        name: Name,
    },
    /// The mention at the place lies on a cycle of mentions.
    TypeCycle {
        /// The place of the mention.
        place: Place,
        /// The name.
        name: Name,
    },
    /// Two different sorts of one presentation have one name.
    DoubleSort {
        /// The place of what brings or makes the second.
        place: Place,
        /// The name that stands there.
        name: Name,
    },
    /// No sort has the name.
    UnknownSort {
        /// The place of the name.
        place: Place,
        /// The name.
        name: Name,
    },
    /// Two different operations of one presentation have one name, form and profile.
    DoubleOperation {
        /// The place of what brings or makes the second.
        place: Place,
        /// The name that stands there.
        name: Name,
    },
    /// No operation has the name.
    UnknownOperation {
        /// The place of the name.
        place: Place,
        /// The name.
        name: Name,
    },
    /// The type that is actualised has nothing formal.
    NotFormal {
        /// The place of its mention.
        place: Place,
        /// The name.
        name: Name,
    },
    /// A formal sort or operation has no actual one.
    MissingActual {
        /// The place of the mention of its type.
        place: Place,
        /// The name of what is formal.
        name: Name,
    },
    /// A presentation has more than 65,536 sorts, operations or equations.
    TooLarge {
        /// The place of what brings the first too many.
        place: Place,
        /// The name that stands there.
        name: Name,
    },
    /// An equation of the type's own has premisses.
    Premised {
        /// The place of the `=>`.
        place: Place,
    },
    /// A term was refused, or an operation does not fit its form. Want of memory does not stand
    /// here.
    Term(SortFault),
    /// Memory was wanted and not there.
    NoMemory,
}

impl From<lotos_base::NoMemory> for TypeFault {
    ghost use Rattle.type_definitions.specs.declared.type_faults.TypeFault.TheVariants.{
      NoMemory as out_of_memory,
    };

    ghost from_gives = { λ _ fault. fault ≡ out_of_memory };

    fn from(_fault: lotos_base::NoMemory) -> TypeFault {
        TypeFault::NoMemory
    }
}

impl From<AllocError> for TypeFault {
    ghost use Rattle.type_definitions.specs.declared.type_faults.TypeFault.TheVariants.{
      NoMemory as out_of_memory,
    };

    ghost from_gives = { λ _ fault. fault ≡ out_of_memory };

    fn from(_fault: AllocError) -> TypeFault {
        TypeFault::NoMemory
    }
}

impl<T: Drop> From<AllocFailed<T>> for TypeFault {
    ghost use Rattle.type_definitions.specs.declared.type_faults.TypeFault.TheVariants.{
      NoMemory as out_of_memory,
    };

    ghost from_gives = { λ _ fault. fault ≡ out_of_memory };

    fn from(_fault: AllocFailed<T>) -> TypeFault {
        TypeFault::NoMemory
    }
}

impl From<SortFault> for TypeFault {
    ghost use Rattle.type_definitions.specs.FaultView.{type_fault_of_term};

    ghost from_gives = { λ refused fault. fault ≡ type_fault_of_term refused };

    fn from(refused: SortFault) -> TypeFault {
        match refused {
            SortFault::UnknownName { place } => TypeFault::Term(SortFault::UnknownName { place }),
            SortFault::UnknownSort { place } => TypeFault::Term(SortFault::UnknownSort { place }),
            SortFault::NoReading { place } => TypeFault::Term(SortFault::NoReading { place }),
            SortFault::TwoReadings { place } => TypeFault::Term(SortFault::TwoReadings { place }),
            SortFault::NoMemory => TypeFault::NoMemory,
        }
    }
}

impl From<TypeNameFault> for TypeFault {
    ghost use Rattle.type_definitions.specs.FaultView.{fault_of_names};

    ghost from_gives = { λ refused fault. fault ≡ fault_of_names refused };

    fn from(refused: TypeNameFault) -> TypeFault {
        match refused {
            TypeNameFault::DoubleType { place, name } => TypeFault::DoubleType { place, name },
            TypeNameFault::UnknownType { place, name } => TypeFault::UnknownType { place, name },
            TypeNameFault::TypeCycle { place, name } => TypeFault::TypeCycle { place, name },
            TypeNameFault::NoMemory => TypeFault::NoMemory,
        }
    }
}
