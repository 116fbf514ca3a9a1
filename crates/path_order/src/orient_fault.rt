//! Why equations have no rules.

ghost use Rattle.std.specs.Prelude.{◌≡◌};

use lotos_base::NoMemory;
use std::alloc::{AllocError, AllocFailed};

/// Why data were not oriented.
#[derive(Clone, Copy, Debug, PartialEq, Eq)]
pub enum OrientFault {
    /// The sides of the equation with this number differ, and neither is greater. It is the first
    /// such equation.
    Unorientable {
        /// The number of the equation, from 0.
        equation: u32,
    },
    /// Memory was wanted and not there.
    NoMemory,
}

impl From<NoMemory> for OrientFault {
    ghost use Rattle.path_order.specs.declared.orient_fault.OrientFault.TheVariants.{
      NoMemory as out_of_memory,
    };

    ghost from_gives = { λ _ fault. fault ≡ out_of_memory };

    fn from(_fault: NoMemory) -> OrientFault {
        OrientFault::NoMemory
    }
}

impl From<AllocError> for OrientFault {
    ghost use Rattle.path_order.specs.declared.orient_fault.OrientFault.TheVariants.{
      NoMemory as out_of_memory,
    };

    ghost from_gives = { λ _ fault. fault ≡ out_of_memory };

    fn from(_fault: AllocError) -> OrientFault {
        OrientFault::NoMemory
    }
}

impl<T: Drop> From<AllocFailed<T>> for OrientFault {
    ghost use Rattle.path_order.specs.declared.orient_fault.OrientFault.TheVariants.{
      NoMemory as out_of_memory,
    };

    ghost from_gives = { λ _ fault. fault ≡ out_of_memory };

    fn from(_fault: AllocFailed<T>) -> OrientFault {
        OrientFault::NoMemory
    }
}
