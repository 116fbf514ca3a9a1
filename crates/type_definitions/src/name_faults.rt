//! What can be wrong with the names of types.

ghost use Rattle.std.specs.Prelude.{◌≡◌};

use lotos_base::{Name, Place};
use std::alloc::{AllocError, AllocFailed};

/// Why the names of types were refused.
#[derive(Debug, Drop)]
pub enum TypeNameFault {
    /// An earlier type has the name of the type at the place.
    DoubleType {
        /// The place of the second declaration.
        place: Place,
        /// The name as it is spelled there.
        name: Name,
    },
    /// No type has the name that is mentioned at the place.
    UnknownType {
        /// The place of the mention.
        place: Place,
        /// The name as it is spelled there.
        name: Name,
    },
    /// The mention at the place lies on a cycle of mentions.
    TypeCycle {
        /// The place of the mention.
        place: Place,
        /// The name as it is spelled there.
        name: Name,
    },
    /// Memory was wanted and not there.
    NoMemory,
}

impl From<lotos_base::NoMemory> for TypeNameFault {
    ghost use Rattle.type_definitions.specs.declared.name_faults.TypeNameFault.TheVariants.{
      NoMemory as out_of_memory,
    };

    ghost from_gives = { λ _ fault. fault ≡ out_of_memory };

    fn from(_fault: lotos_base::NoMemory) -> TypeNameFault {
        TypeNameFault::NoMemory
    }
}

impl From<AllocError> for TypeNameFault {
    ghost use Rattle.type_definitions.specs.declared.name_faults.TypeNameFault.TheVariants.{
      NoMemory as out_of_memory,
    };

    ghost from_gives = { λ _ fault. fault ≡ out_of_memory };

    fn from(_fault: AllocError) -> TypeNameFault {
        TypeNameFault::NoMemory
    }
}

impl<T: Drop> From<AllocFailed<T>> for TypeNameFault {
    ghost use Rattle.type_definitions.specs.declared.name_faults.TypeNameFault.TheVariants.{
      NoMemory as out_of_memory,
    };

    ghost from_gives = { λ _ fault. fault ≡ out_of_memory };

    fn from(_fault: AllocFailed<T>) -> TypeNameFault {
        TypeNameFault::NoMemory
    }
}
