//! Why a list is not made.

ghost use Rattle.std.specs.Prelude.{◌≡◌};

use lotos_base::NoMemory;
use std::alloc::{AllocError, AllocFailed};

/// Why a list is not made.
#[derive(Clone, Copy, Debug, PartialEq, Eq)]
pub enum ListFault {
    /// There are more than 2,000 values up to the size, over all sorts.
    TooManyValues,
    /// There are more than 100,000 ways to choose values.
    TooManyInstances,
    /// Memory was wanted and not there.
    NoMemory,
}

impl From<NoMemory> for ListFault {
    ghost use Rattle.value_lists.specs.declared.list_fault.ListFault.TheVariants.{
      NoMemory as out_of_memory,
    };

    ghost from_gives = { λ _ fault. fault ≡ out_of_memory };

    fn from(_fault: NoMemory) -> ListFault {
        ListFault::NoMemory
    }
}

impl From<AllocError> for ListFault {
    ghost use Rattle.value_lists.specs.declared.list_fault.ListFault.TheVariants.{
      NoMemory as out_of_memory,
    };

    ghost from_gives = { λ _ fault. fault ≡ out_of_memory };

    fn from(_fault: AllocError) -> ListFault {
        ListFault::NoMemory
    }
}

impl<T: Drop> From<AllocFailed<T>> for ListFault {
    ghost use Rattle.value_lists.specs.declared.list_fault.ListFault.TheVariants.{
      NoMemory as out_of_memory,
    };

    ghost from_gives = { λ _ fault. fault ≡ out_of_memory };

    fn from(_fault: AllocFailed<T>) -> ListFault {
        ListFault::NoMemory
    }
}
